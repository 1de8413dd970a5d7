//! Whether rows fit a catalog. Nothing here takes memory.
ghost use Rattle.std.specs.Prelude.{◌≡◌, drop};
ghost use Rattle.std.specs.List.{list_all, list_any, zip};
ghost use Rattle.hr_rel.specs.Database.{key_of, columns_of};
ghost use Rattle.hr_rel.specs.Kinds.{is_of_kind, refuses};
ghost use Rattle.hr_rel.specs.Holds.{row_fits, row_holds, is_key, has_number_key, is_below, ascends, is_ordered, table_holds, holds};

use crate::kinds::{fits_i64, is_of_kind, refuses};
use crate::{Catalog, ColumnDef, Row, Rows, Table, TableDef, Value};

impl Catalog {
    /// The columns of the table with this number; none where there is no such table.
    pub fn columns_of(&self, table: u32) -> &[ColumnDef]
        ensures { result.now ≡ columns_of self.now table }
    {
        match self.tables.as_slice().get(table as usize) {
            Some(def) => def.columns.as_slice(),
            None => &[],
        }
    }

    /// Whether rows fit this catalog: one list for each table, in ascending order of distinct keys, each row with its
    /// table's length and kinds, and NULL in nullable columns alone.
    pub fn holds(&self, rows: &Rows) -> bool
        ensures { result ≡ holds self.now rows.now }
    {
        rows.len() == self.tables.len() && tables_hold(self.tables.as_slice(), rows.as_slice())
    }
}

fn tables_hold(tables: &[TableDef], rows: &[Table]) -> bool
    ensures { result ≡ list_all (λ p. table_holds p.0.columns p.1) (zip tables.now rows.now) }
{
    tables.iter().zip(rows).all(|(table, rows)| table_holds(
        table.columns.as_slice(),
        rows.as_slice(),
    ))
}

fn table_holds(columns: &[ColumnDef], rows: &[Row]) -> bool
    ensures { result ≡ table_holds columns.now rows.now }
{
    rows_hold(columns, rows) && is_ordered(rows)
}

fn rows_hold(columns: &[ColumnDef], rows: &[Row]) -> bool
    ensures { result ≡ list_all (row_holds columns.now) rows.now }
{
    rows.iter().all(|row| row_holds(columns, row))
}

fn row_holds(columns: &[ColumnDef], row: &Row) -> bool
    ensures { result ≡ row_holds columns.now row.now }
{
    row_fits(columns, row) && !is_refused(columns, row.as_slice())
}

fn is_refused(columns: &[ColumnDef], row: &[Value]) -> bool
    ensures { result ≡ list_any refuses (zip columns.now row.now) }
{
    columns
        .iter()
        .zip(row)
        .any(|(column, value)| refuses(column, value))
}

/// Whether a row has a value of its kind for each column.
pub fn row_fits(columns: &[ColumnDef], row: &Row) -> bool
    ensures { result ≡ row_fits columns.now row.now }
{
    row.len() == columns.len() && kinds_fit(columns, row.as_slice())
}

fn kinds_fit(columns: &[ColumnDef], row: &[Value]) -> bool
    ensures { result ≡ list_all (λ p. is_of_kind p.0.kind p.1) (zip columns.now row.now) }
{
    columns
        .iter()
        .zip(row)
        .all(|(column, value)| is_of_kind(&column.kind, value))
}

fn is_ordered(rows: &[Row]) -> bool
    ensures { result ≡ is_ordered rows.now }
{
    have_keys(rows) && ascend(rows)
}

fn have_keys(rows: &[Row]) -> bool
    ensures { result ≡ list_all has_number_key rows.now }
{
    rows.iter().all(|row| has_number_key(row))
}

fn has_number_key(row: &Row) -> bool
    ensures { result ≡ has_number_key row.now }
{
    is_key(key_of(row))
}

fn is_key(key: Option<i64>) -> bool
    ensures { result ≡ is_key key }
{
    match key {
        Some(n) => fits_i64(n),
        None => false,
    }
}

// Whether each row but the first has a greater key than the row before.
fn ascend(rows: &[Row]) -> bool
    ensures { result ≡ list_all ascends (zip rows.now (drop 1 rows.now)) }
{
    match rows {
        [] => true,
        [_, behind @ ..] => pairs_ascend(rows, behind),
    }
}

fn pairs_ascend(rows: &[Row], behind: &[Row]) -> bool
    ensures { result ≡ list_all ascends (zip rows.now behind.now) }
{
    rows.iter()
        .zip(behind)
        .all(|(row, next)| ascends(row, next))
}

fn ascends(row: &Row, next: &Row) -> bool
    ensures { result ≡ ascends (row.now, next.now) }
{
    is_below(key_of(row), key_of(next))
}

fn is_below(key: Option<i64>, next: Option<i64>) -> bool
    ensures { result ≡ is_below key next }
{
    match (key, next) {
        (Some(key), Some(next)) => key < next,
        _ => false,
    }
}

/// The row's key, its first value, where that is a number.
pub fn key_of(row: &Row) -> Option<i64>
    ensures { result ≡ key_of row.now }
{
    match row.as_slice() {
        [Value::Int(key), ..] => Some(*key),
        _ => None,
    }
}
