//! The kinds of values. Nothing here takes memory.
ghost use Rattle.std.specs.Prelude.{◌≡◌};
ghost use Rattle.hr_rel.specs.Kinds.{fits_i64, same_kind, is_of_kind, is_null, refuses};

use crate::{ColKind, ColumnDef, Value};

// Always so: each number of the program has 64 bits. Those of the definitions have no bounds.
pub fn fits_i64(n: i64) -> bool
    ensures { result ≡ fits_i64 n }
{
    let _n = n;
    true
}

pub fn same_kind(a: ColKind, b: ColKind) -> bool
    ensures { result ≡ same_kind a b }
{
    matches!(
        (a, b),
        (ColKind::Int, ColKind::Int) | (ColKind::Text, ColKind::Text)
    )
}

pub fn is_of_kind(kind: &ColKind, value: &Value) -> bool
    ensures { result ≡ is_of_kind kind.now value.now }
{
    match (kind, value) {
        (_, Value::Null) => true,
        (ColKind::Int, Value::Int(n)) => fits_i64(*n),
        (ColKind::Text, Value::Text(_)) => true,
        _ => false,
    }
}

/// Whether a column takes no NULL, and the value is one.
pub fn refuses(column: &ColumnDef, value: &Value) -> bool
    ensures { result ≡ refuses (column.now, value.now) }
{
    is_null(value) && !column.nullable
}

fn is_null(value: &Value) -> bool
    ensures { result ≡ is_null value.now }
{
    matches!(value, Value::Null)
}
