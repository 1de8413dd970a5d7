//! INSERT: all rows or none. They are checked and copied, and room is made for them, before the first is put in.
ghost use Rattle.std.specs.Prelude.{◌≡◌, true, unwrap_or, ◌+◌, ◌<◌, ◌≤◌, [], Ok, Err, IfOk, IfSome, OnErr, length, position, vec_len, vec_capacity};
ghost use Rattle.std.specs.Result.{MatchResult};
ghost use Rattle.std.specs.List.{list_any, zip};
ghost use Rattle.std.specs.Option.{option_map};
ghost use Rattle.hr_rel.specs.Database.{key_of};
ghost use Rattle.hr_rel.specs.Holds.{is_ordered};
ghost use Rattle.hr_keys.specs.Keys.{Splits};
ghost use Rattle.hr_rel.specs.Kinds.{refuses};
ghost use Rattle.hr_meaning.specs.Insert.{has_key, null_refused, comes_after, place_for, put_row, inserted};
ghost use Rattle.hr_machine.specs.Changes.{key_error, row_error, rows_error, put_rows};

use hr_keys::{near, place_of};
use hr_rel::{ColumnDef, Row, RunError, TryCopy, Value, key_of, refuses};
use std::alloc::{AllocError, Global};
use std::collections::VecDeque;

/// Puts rows into a table with these columns, each at the place of its key, or tells the first error of a row. Where memory
/// runs out, nothing changes.
#[tactic(auto, using(hr_keys::proofs::Places::splits_in_order))]
pub fn insert_rows(
    alloc: Global,
    columns: &[ColumnDef],
    table: &mut Vec<Row>,
    rows: &[Row],
    ordered: bool,
) -> Result<Result<(), RunError>, AllocError>
    requires { ordered ≡ true → is_ordered table.old.items ≡ true }
    ensures outcome { IfOk result (λ outcome. MatchResult outcome (λ _. inserted columns.now table.old.items rows.now ≡ Ok table.new.items) (λ e. (inserted columns.now table.old.items rows.now ≡ Err e) × (table.new.items ≡ table.old.items))) }
    ensures err { OnErr result (table.new.items ≡ table.old.items) }
{
    if let Some(error) = rows_error(columns, table, rows, ordered)? {
        return Ok(Err(error));
    }
    let copies = copied(alloc, rows)?;
    table.reserve(rows.len())?;
    put_rows(table, copies, ordered);
    Ok(Ok(()))
}

// The first error of the rows, each of which comes after the earlier ones.
fn rows_error(
    columns: &[ColumnDef],
    table: &[Row],
    rows: &[Row],
    ordered: bool,
) -> Result<Option<RunError>, AllocError>
    requires { ordered ≡ true → is_ordered table.now ≡ true }
    ensures { IfOk result (λ error. error ≡ rows_error columns.now table.now [] rows.now) }
{
    let mut at = 0;
    'rows: while at < rows.len() {
        if let Some(error) = row_error(columns, table, &rows[..at], &rows[at], ordered)? {
            return Ok(Some(error));
        }
        at += 1;
    }
    Ok(None)
}

// Why a row can't be inserted: a NULL that is refused comes before a key that is there.
fn row_error(
    columns: &[ColumnDef],
    table: &[Row],
    earlier: &[Row],
    row: &Row,
    ordered: bool,
) -> Result<Option<RunError>, AllocError>
    requires { ordered ≡ true → is_ordered table.now ≡ true }
    ensures { IfOk result (λ error. error ≡ row_error columns.now table.now earlier.now row.now) }
{
    match null_refused(columns, row)? {
        Some(error) => Ok(Some(error)),
        None => Ok(key_error(table, earlier, key_of(row), ordered)),
    }
}

// Want of memory stands for a place that the error has no room for, of which no table has so many columns.
fn null_refused(columns: &[ColumnDef], row: &Row) -> Result<Option<RunError>, AllocError>
    ensures { IfOk result (λ error. error ≡ null_refused columns.now row.now) }
{
    match first_refusal(columns, row.as_slice()) {
        Some(at) if at < u32::MAX as usize => Ok(Some(RunError::NullRefused(at as u32 + 1))),
        Some(_) => Err(AllocError),
        None => Ok(None),
    }
}

fn first_refusal(columns: &[ColumnDef], row: &[Value]) -> Option<usize>
    ensures first { result ≡ position refuses (zip columns.now row.now) }
    ensures within { IfSome result (λ at. at < length columns.now) }
{
    columns
        .iter()
        .zip(row)
        .position(|(column, value)| refuses(column, value))
}

fn key_error(table: &[Row], earlier: &[Row], key: Option<i64>, ordered: bool) -> Option<RunError>
    requires { ordered ≡ true → is_ordered table.now ≡ true }
    ensures { result ≡ key_error table.now earlier.now key }
{
    match key {
        Some(key) if table_contains(table, key, ordered) || contains_key(earlier, key) => {
            Some(RunError::DuplicateKey(key))
        }
        _ => None,
    }
}

// Whether a row of the table has the key; where the table is known to be in order, only the row near it is looked at.
fn table_contains(table: &[Row], key: i64, ordered: bool) -> bool
    requires { ordered ≡ true → is_ordered table.now ≡ true }
    ensures { result ≡ list_any (has_key key) table.now }
{
    if ordered {
        near_contains(table, key)
    } else {
        contains_key(table, key)
    }
}

fn near_contains(table: &[Row], key: i64) -> bool
    requires { is_ordered table.now ≡ true }
    ensures { result ≡ list_any (has_key key) table.now }
{
    let span = near(table, key);
    contains_key(&table[span.from..span.to], key)
}

fn contains_key(table: &[Row], key: i64) -> bool
    ensures { result ≡ list_any (has_key key) table.now }
{
    table.iter().any(|row| has_key(key, row))
}

fn has_key(key: i64, row: &Row) -> bool
    ensures { result ≡ has_key key row.now }
{
    match key_of(row) {
        Some(found) => found == key,
        None => false,
    }
}

fn copied(alloc: Global, rows: &[Row]) -> Result<VecDeque<Row>, AllocError>
    ensures { IfOk result (λ copies. copies.items ≡ rows.now) }
{
    let mut copies = VecDeque::with_capacity(alloc, rows.len())?;
    'rows: for row in rows {
        copies.push_back(row.try_copy(alloc)?)?;
    }
    Ok(copies)
}

// There is room for all of them. Once a row has no key, no order is known any more.
fn put_rows(table: &mut Vec<Row>, rows: VecDeque<Row>, ordered: bool)
    requires room { vec_len table.old + length rows.items ≤ vec_capacity table.old }
    requires order { ordered ≡ true → Splits table.old.items }
    ensures { table.new.items ≡ put_rows table.old.items rows.items }
{
    let mut rest = rows;
    let mut splits = ordered;
    'rows: while let Some(row) = rest.pop_front() {
        splits = put_row(table, row, splits);
    }
}

// The row is put at its place; whether the table's order is known after it.
#[tactic(auto, using(hr_keys::proofs::Places::splits_with_row))]
fn put_row(table: &mut Vec<Row>, row: Row, splits: bool) -> bool
    requires room { vec_len table.old < vec_capacity table.old }
    requires order { splits ≡ true → Splits table.old.items }
    ensures items { table.new.items ≡ put_row table.old.items row }
    ensures len { vec_len table.new ≡ vec_len table.old + 1 }
    ensures capacity { vec_capacity table.old ≤ vec_capacity table.new }
    ensures order { result ≡ true → Splits table.new.items }
{
    let key = key_of(&row);
    let at = place_at(table, key, splits);
    let Ok(()) = table.insert(at, row) else {
        unreachable!()
    };
    splits && key.is_some()
}

// The place of a new row; one without a key stands at the end.
fn place_at(table: &[Row], key: Option<i64>, splits: bool) -> usize
    requires { splits ≡ true → Splits table.now }
    ensures place { result ≡ unwrap_or (option_map (place_for table.now) key) (length table.now) }
    ensures within { result ≤ length table.now }
{
    match key {
        Some(key) if splits => place_of(table, key),
        Some(key) => place_for(table, key),
        None => table.len(),
    }
}

// The place of a new key: before the first greater one, or at the end.
fn place_for(table: &[Row], key: i64) -> usize
    ensures place { result ≡ place_for table.now key }
    ensures within { result ≤ length table.now }
{
    match first_after(table, key) {
        Some(at) => at,
        None => table.len(),
    }
}

fn first_after(table: &[Row], key: i64) -> Option<usize>
    ensures first { result ≡ position (comes_after key) table.now }
    ensures within { IfSome result (λ at. at < length table.now) }
{
    table.iter().position(|row| comes_after(key, row))
}

fn comes_after(key: i64, row: &Row) -> bool
    ensures { result ≡ comes_after key row.now }
{
    match key_of(row) {
        Some(found) => found > key,
        None => false,
    }
}
