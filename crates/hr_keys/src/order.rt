//! Whether a database is in order.
ghost use Rattle.std.specs.Prelude.{◌≡◌, true, nat_le, length};
ghost use Rattle.std.specs.List.{list_all};
ghost use Rattle.hr_base.specs.declared.limits.TheConstants.{MAX_COLUMNS};
ghost use Rattle.hr_rel.specs.declared.catalog.ColKind.TheVariants as kinds;
ghost use Rattle.hr_rel.specs.Kinds.{same_kind};
ghost use Rattle.hr_rel.specs.Holds.{has_key_column, IsSound, IsOrdered};

use hr_base::limits::MAX_COLUMNS;
use hr_rel::{Catalog, ColKind, ColumnDef, Rows, TableDef};

/// Whether rows fit a catalog in which each table has its key: then they are in order, and stay so whatever statement runs.
pub fn in_order(catalog: &Catalog, rows: &Rows) -> bool
    ensures { result ≡ true → IsOrdered record { catalog = catalog.now; tables = rows.now } }
{
    is_sound(catalog) && catalog.holds(rows)
}

fn is_sound(catalog: &Catalog) -> bool
    ensures { result ≡ true → IsSound catalog.now }
{
    let tables = catalog.tables.as_slice();
    have_keys(tables) && have_few_columns(tables)
}

fn have_keys(tables: &[TableDef]) -> bool
    ensures { result ≡ list_all (λ t. has_key_column t.columns) tables.now }
{
    tables
        .iter()
        .all(|table| has_key_column(table.columns.as_slice()))
}

fn has_key_column(columns: &[ColumnDef]) -> bool
    ensures { result ≡ has_key_column columns.now }
{
    match columns {
        [] => false,
        [key, ..] => is_int(key.kind) && !key.nullable,
    }
}

fn is_int(kind: ColKind) -> bool
    ensures { result ≡ same_kind kind kinds.Int }
{
    matches!(kind, ColKind::Int)
}

fn have_few_columns(tables: &[TableDef]) -> bool
    ensures { result ≡ list_all (λ t. nat_le (length t.columns) MAX_COLUMNS) tables.now }
{
    tables
        .iter()
        .all(|table| table.columns.len() <= MAX_COLUMNS)
}
