//! A row more in a table: at the place of its key, or why it can't be inserted.

ghost use Rattle.std.specs.Prelude.{◌≡◌, ◌+◌, ◌<◌, ◌≤◌, true, [], length, position, insert, unwrap_or, slice_set, IfOk, IfSome, OnOk};
ghost use Rattle.std.specs.List.{list_all, list_any, zip};
ghost use Rattle.std.specs.Option.{option_map};
ghost use Rattle.hr_rel.specs.Kinds.{refuses, fits_i64};
ghost use Rattle.hr_rel.specs.Holds.{is_ordered, has_number_key};
ghost use Rattle.hr_rel.specs.Database.{key_of};
ghost use Rattle.hr_meaning.specs.Insert as meaning;
ghost use Rattle.hr_said.specs.declared.limits.TheConstants.{MAX_FIRST_ROWS};
ghost use Rattle.hr_said.specs.Outcomes.{Gives};
ghost use Rattle.hr_reader.specs.Shaped.{HasTables, AreOrdered, rows_at};
ghost use Rattle.hr_reader.specs.Rows as spec;

use hr_keys::{near, place_of};
use hr_rel::{ColumnDef, Row, Rows, RunError, Seq, Value, key_of, refuses};
use hr_said::{InputKind, LineError, Said, columns_at};
use std::alloc::{AllocError, Global};
use std::mem;

/// Puts a row into the table with this number, at the place of its key; or tells why it can't be inserted.
#[tactic(auto, using(crate::proofs::Order::table_in_order, crate::proofs::Order::ordered_with_row))]
pub fn add_row(
    alloc: Global,
    said: &mut Said,
    ordered: bool,
    table: usize,
    row: Row,
) -> Result<bool, LineError>
    requires tables { HasTables said.old }
    requires within { table < length said.old.catalog.tables }
    requires few { said.old.row_count < MAX_FIRST_ROWS }
    requires order { AreOrdered ordered said.old }
    ensures said { Gives (spec.add_row said.old table row) said.new result }
    ensures tables { OnOk result (HasTables said.new) }
    ensures order { IfOk result (λ known. AreOrdered known said.new) }
{
    let columns = columns_at(&said.catalog, table);
    if let Some(error) = insert_error(columns, table_at(&said.rows, table), &row, ordered)? {
        return Err(LineError::Refused(InputKind::Row(error)));
    }
    let stays = ordered && has_number_key(&row);
    put_row(alloc, &mut said.rows, ordered, table, row)?;
    said.part = 5;
    said.row_count += 1;
    Ok(stays)
}

fn table_at(rows: &Rows, table: usize) -> &[Row]
    ensures { result.now ≡ rows_at rows.now table }
{
    match rows.as_slice().get(table) {
        Some(rows) => rows.as_slice(),
        None => &[],
    }
}

/// Why a row can't be inserted: a NULL that is refused comes before a key that is there.
fn insert_error(
    columns: &[ColumnDef],
    table: &[Row],
    row: &Row,
    ordered: bool,
) -> Result<Option<RunError>, AllocError>
    requires { ordered ≡ true → is_ordered table.now ≡ true }
    ensures { IfOk result (λ error. error ≡ meaning.insert_error columns.now table.now row.now) }
{
    match null_refused(columns, row)? {
        Some(error) => Ok(Some(error)),
        None => Ok(duplicate_key(table, row, ordered)),
    }
}

/// Want of memory stands for a place that the error has no room for, of which no table has so many columns.
fn null_refused(columns: &[ColumnDef], row: &Row) -> Result<Option<RunError>, AllocError>
    ensures { IfOk result (λ error. error ≡ meaning.null_refused columns.now row.now) }
{
    match first_refusal(columns, row.as_slice()) {
        Some(at) if at < u32::MAX as usize => Ok(Some(RunError::NullRefused(at as u32 + 1))),
        Some(_) => Err(AllocError),
        None => Ok(None),
    }
}

fn first_refusal(columns: &[ColumnDef], row: &[Value]) -> Option<usize>
    ensures first { result ≡ position refuses (zip columns.now row.now) }
    ensures within { IfSome result (λ at. at < length columns.now) }
{
    columns
        .iter()
        .zip(row)
        .position(|(column, value)| refuses(column, value))
}

fn duplicate_key(table: &[Row], row: &Row, ordered: bool) -> Option<RunError>
    requires { ordered ≡ true → is_ordered table.now ≡ true }
    ensures { result ≡ meaning.duplicate_key table.now row.now }
{
    match key_of(row) {
        Some(key) if table_contains(table, key, ordered) => Some(RunError::DuplicateKey(key)),
        _ => None,
    }
}

/// Whether a row of the table has the key; where the table is known to be in order, only the row near it is looked at.
fn table_contains(table: &[Row], key: i64, ordered: bool) -> bool
    requires { ordered ≡ true → is_ordered table.now ≡ true }
    ensures { result ≡ list_any (meaning.has_key key) table.now }
{
    if ordered {
        near_contains(table, key)
    } else {
        contains_key(table, key)
    }
}

fn near_contains(table: &[Row], key: i64) -> bool
    requires { is_ordered table.now ≡ true }
    ensures { result ≡ list_any (meaning.has_key key) table.now }
{
    let span = near(table, key);
    contains_key(&table[span.from..span.to], key)
}

fn contains_key(table: &[Row], key: i64) -> bool
    ensures { result ≡ list_any (meaning.has_key key) table.now }
{
    table.iter().any(|row| has_key(key, row))
}

fn has_key(key: i64, row: &Row) -> bool
    ensures { result ≡ meaning.has_key key row.now }
{
    match key_of(row) {
        Some(found) => found == key,
        None => false,
    }
}

fn has_number_key(row: &Row) -> bool
    ensures { result ≡ has_number_key row.now }
{
    match key_of(row) {
        Some(key) => fits_i64(key),
        None => false,
    }
}

// Always so: each number of the program has 64 bits. Those of the definitions have no bounds.
fn fits_i64(n: i64) -> bool
    ensures { result ≡ fits_i64 n }
{
    let _n = n;
    true
}

/// Puts a row in at its place.
fn put_row(
    alloc: Global,
    rows: &mut Rows,
    ordered: bool,
    table: usize,
    row: Row,
) -> Result<(), AllocError>
    requires within { table < length rows.old }
    requires order { ordered ≡ true → is_ordered (rows_at rows.old table) ≡ true }
    ensures { OnOk result (rows.new ≡ slice_set rows.old table (meaning.put_row (rows_at rows.old table) row)) }
{
    let at = place_for(table_at(rows, table), key_of(&row), ordered);
    insert_row(alloc, rows, table, at, row)
}

/// The place of a new row; one without a key stands at the end.
fn place_for(table: &[Row], key: Option<i64>, ordered: bool) -> usize
    requires { ordered ≡ true → is_ordered table.now ≡ true }
    ensures place { result ≡ unwrap_or (option_map (meaning.place_for table.now) key) (length table.now) }
    ensures within { result ≤ length table.now }
{
    match key {
        Some(key) if ordered => place_in_order(table, key),
        Some(key) => place_among(table, key),
        None => table.len(),
    }
}

#[tactic(auto, using(hr_keys::proofs::Places::splits_in_order))]
fn place_in_order(table: &[Row], key: i64) -> usize
    requires { is_ordered table.now ≡ true }
    ensures place { result ≡ meaning.place_for table.now key }
    ensures within { result ≤ length table.now }
{
    place_of(table, key)
}

/// The place of a new key: before the first greater one, or at the end.
fn place_among(table: &[Row], key: i64) -> usize
    ensures place { result ≡ meaning.place_for table.now key }
    ensures within { result ≤ length table.now }
{
    match first_after(table, key) {
        Some(at) => at,
        None => table.len(),
    }
}

fn first_after(table: &[Row], key: i64) -> Option<usize>
    ensures first { result ≡ position (meaning.comes_after key) table.now }
    ensures within { IfSome result (λ at. at < length table.now) }
{
    table.iter().position(|row| comes_after(key, row))
}

fn comes_after(key: i64, row: &Row) -> bool
    ensures { result ≡ meaning.comes_after key row.now }
{
    match key_of(row) {
        Some(found) => found > key,
        None => false,
    }
}

#[tactic(auto, using(hr_said::proofs::SetLemmas::set_again))]
fn insert_row(
    alloc: Global,
    rows: &mut Rows,
    table: usize,
    at: usize,
    row: Row,
) -> Result<(), AllocError>
    requires table { table < length rows.old }
    requires at { at ≤ length (rows_at rows.old table) }
    ensures { OnOk result (rows.new ≡ slice_set rows.old table (insert (rows_at rows.old table) at row)) }
{
    let mut changed = take_table(alloc, rows, table);
    changed.insert(at, row)?;
    rows.set(table, changed);
    Ok(())
}

/// Takes the rows of a table out, which is left without any; takes no memory.
fn take_table(alloc: Global, rows: &mut Rows, table: usize) -> Seq<Row>
    requires { table < length rows.old }
    ensures rows { result ≡ rows_at rows.old table }
    ensures left { rows.new ≡ slice_set rows.old table [] }
{
    let mut all = mem::replace(rows, Seq::new(alloc)).into_vec();
    let taken = mem::replace(&mut all[table], Seq::new(alloc));
    *rows = Seq::from_vec(all);
    taken
}
