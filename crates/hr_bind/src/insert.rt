//! INSERT: the whole rows that it is bound to.
ghost use Rattle.std.specs.Prelude.{◌≡◌, position, IfOk};
ghost use Rattle.hr_names.specs.Scope as scopes;
ghost use Rattle.hr_bind.specs.Bound as bound;

use crate::operand::bound_value;
use hr_names::column_of;
use hr_parse::{InsertAst, LiteralAst, NameAt, TupleAst};
use hr_rel::{ColumnDef, InsertStmt, Row, Seq, Value};
use std::alloc::{AllocError, Global};

fn is_at(column: usize, at: Option<usize>) -> bool
    ensures { result ≡ bound.is_at column at }
{
    match at {
        Some(at) => at == column,
        None => false,
    }
}

/// The place of the first name that means a column.
fn named_at(columns: &[ColumnDef], names: &[NameAt], column: usize) -> Option<usize>
    ensures { result ≡ position (λ n. bound.is_at column (scopes.column_of columns.now n.name)) names.now }
{
    names.iter().position(|name| is_at(column, column_of(columns, name.name.bytes())))
}

/// The place, within a tuple, of the value of a column, if it is named.
fn source(columns: &[ColumnDef], names: &[NameAt], column: usize) -> Option<usize>
    ensures { result ≡ bound.source columns.now names.now column }
{
    if names.is_empty() {
        Some(column)
    } else {
        named_at(columns, names, column)
    }
}

/// The value of a column in a tuple; NULL where it isn't named.
fn value_in(
    columns: &[ColumnDef],
    names: &[NameAt],
    values: &[LiteralAst],
    column: usize,
) -> Result<Value, AllocError>
    ensures { IfOk result (λ v. v ≡ bound.value_in columns.now names.now values.now column) }
{
    let Some(place) = source(columns, names, column) else {
        return Ok(Value::Null);
    };
    match values.get(place) {
        Some(literal) => bound_value(&literal.value),
        None => Ok(Value::Null),
    }
}

/// A whole row, in table order.
fn bound_row(
    alloc: Global,
    columns: &[ColumnDef],
    names: &[NameAt],
    tuple: &TupleAst,
) -> Result<Row, AllocError>
    ensures { IfOk result (λ row. row ≡ bound.bound_row columns.now names.now tuple.now) }
{
    let mut row = Vec::with_capacity(alloc, columns.len())?;
    for column in 0..columns.len() {
        row.push(value_in(columns, names, tuple.values.as_slice(), column)?)?;
    }
    Ok(Seq::from_vec(row))
}

/// The bound INSERT into this table.
pub fn bound_insert(
    alloc: Global,
    table: u32,
    columns: &[ColumnDef],
    insert: &InsertAst,
) -> Result<InsertStmt, AllocError>
    ensures { IfOk result (λ s. s ≡ bound.bound_insert table columns.now insert.now) }
{
    let mut rows = Vec::with_capacity(alloc, insert.tuples.len())?;
    for tuple in insert.tuples.as_slice() {
        rows.push(bound_row(alloc, columns, insert.columns.as_slice(), tuple)?)?;
    }
    Ok(InsertStmt {
        table,
        rows: Seq::from_vec(rows),
    })
}
