//! UPDATE and DELETE. The new rows of an UPDATE are all made before the first takes the place of its old one.
ghost use Rattle.std.specs.Prelude.{◌≡◌, ◌+◌, ◌≤◌, true, [], ◌∷◌, not, length, filter, slice_set, Ok, Err, IfOk, OnErr};
ghost use Rattle.std.specs.Result.{MatchResult};
ghost use Rattle.hr_rel.specs.Holds.{is_ordered};
ghost use Rattle.hr_meaning.specs.Truth.{is_kept};
ghost use Rattle.hr_meaning.specs.Value.{each};
ghost use Rattle.hr_meaning.specs.Exec.{updated, kept_rows, other_rows};
ghost use Rattle.hr_keys.specs.Keys.{IsClear};
ghost use Rattle.hr_machine.specs.Changes.{change_at, changes_from, changed_rows};

use hr_eval::{Tuple, assigned, is_kept};
use hr_keys::{Span, span_of};
use hr_rel::{ColumnDef, Pred, Row, RunError, UpdateStmt};
use std::alloc::{AllocError, Global};
use std::collections::VecDeque;

/// A new row for the one at a place of a table.
#[derive(Drop)]
pub struct Change {
    place: usize,
    row: Row,
}

/// Changes the rows that an UPDATE keeps, and counts them, or tells the first error of a row. Where memory runs out, nothing
/// changes.
pub fn update_rows(
    alloc: Global,
    columns: &[ColumnDef],
    table: &mut Vec<Row>,
    update: &UpdateStmt,
    ordered: bool,
) -> Result<Result<usize, RunError>, AllocError>
    requires { ordered ≡ true → is_ordered table.old.items ≡ true }
    ensures outcome { IfOk result (λ outcome. MatchResult outcome (λ n. (each (updated columns.now update.now) table.old.items ≡ Ok table.new.items) × (n ≡ length (kept_rows update.now.filter table.old.items))) (λ e. (each (updated columns.now update.now) table.old.items ≡ Err e) × (table.new.items ≡ table.old.items))) }
    ensures err { OnErr result (table.new.items ≡ table.old.items) }
{
    let span = span_of(table, &update.filter, ordered);
    match changes(alloc, columns, table, update, span)? {
        Ok(changes) => {
            let count = changes.len();
            apply(table, changes);
            Ok(Ok(count))
        }
        Err(error) => Ok(Err(error)),
    }
}

// The new rows of those that are kept, with their places, or the first error. No row outside of the span is kept.
fn changes(
    alloc: Global,
    columns: &[ColumnDef],
    table: &[Row],
    update: &UpdateStmt,
    span: Span,
) -> Result<Result<VecDeque<Change>, RunError>, AllocError>
    requires within { (span.from ≤ span.to) × (span.to ≤ length table.now) }
    requires clear { IsClear (λ row. is_kept update.now.filter (row ∷ [])) span.from span.to table.now }
    ensures { IfOk result (λ outcome. MatchResult outcome (λ found. changes_from columns.now update.now 0 table.now ≡ Ok found.items) (λ e. changes_from columns.now update.now 0 table.now ≡ Err e)) }
{
    let mut changes = VecDeque::new(alloc);
    let mut place = span.from;
    'rows: while place < span.to {
        match change_at(alloc, columns, update, place, &table[place])? {
            Ok(None) => {}
            Ok(Some(change)) => changes.push_back(change)?,
            Err(error) => return Ok(Err(error)),
        }
        place += 1;
    }
    Ok(Ok(changes))
}

// The new row of one at a place, if it is kept.
fn change_at(
    alloc: Global,
    columns: &[ColumnDef],
    update: &UpdateStmt,
    place: usize,
    row: &Row,
) -> Result<Result<Option<Change>, RunError>, AllocError>
    ensures { IfOk result (λ outcome. outcome ≡ change_at columns.now update.now place row.now) }
{
    if !is_kept(&update.filter, Tuple::Row(row.as_slice())) {
        return Ok(Ok(None));
    }
    match assigned(alloc, columns, row, update.sets.as_slice())? {
        Ok(row) => Ok(Ok(Some(Change { place, row }))),
        Err(error) => Ok(Err(error)),
    }
}

fn apply(table: &mut Vec<Row>, changes: VecDeque<Change>)
    ensures { table.new.items ≡ changed_rows table.old.items changes.items }
{
    let mut rest = changes;
    'changes: while let Some(Change { place, row }) = rest.pop_front() {
        set_row(table, place, row);
    }
}

// A place that the table doesn't have is passed over.
fn set_row(table: &mut Vec<Row>, place: usize, row: Row)
    ensures { table.new.items ≡ slice_set table.old.items place row }
{
    if place < table.len() {
        table[place] = row;
    }
}

/// Removes the rows that a DELETE keeps, and counts them; takes no memory.
pub fn delete_rows(table: &mut Vec<Row>, filter: &Option<Pred>, ordered: bool) -> usize
    requires { ordered ≡ true → is_ordered table.old.items ≡ true }
    ensures rows { table.new.items ≡ other_rows filter.now table.old.items }
    ensures count { result ≡ length (kept_rows filter.now table.old.items) }
{
    let span = span_of(table, filter, ordered);
    if span.to - span.from > 1 {
        delete_all(table, filter)
    } else {
        delete_in(table, filter, span)
    }
}

// The span has one row or none, and no row outside of it is kept.
fn delete_in(table: &mut Vec<Row>, filter: &Option<Pred>, span: Span) -> usize
    requires within { (span.from ≤ span.to) × (span.to ≤ span.from + 1) × (span.to ≤ length table.old.items) }
    requires clear { IsClear (λ row. is_kept filter.now (row ∷ [])) span.from span.to table.old.items }
    ensures rows { table.new.items ≡ other_rows filter.now table.old.items }
    ensures count { result ≡ length (kept_rows filter.now table.old.items) }
{
    if span.from < span.to && is_kept(filter, Tuple::Row(table[span.from].as_slice())) {
        table.remove(span.from);
        1
    } else {
        0
    }
}

fn delete_all(table: &mut Vec<Row>, filter: &Option<Pred>) -> usize
    ensures rows { table.new.items ≡ other_rows filter.now table.old.items }
    ensures count { result ≡ length (kept_rows filter.now table.old.items) }
{
    let before = table.len();
    retain(table, filter);
    before - table.len()
}

fn retain(table: &mut Vec<Row>, filter: &Option<Pred>)
    ensures { table.new.items ≡ other_rows filter.now table.old.items }
{
    table.retain(|row| !is_kept(filter, Tuple::Row(row.as_slice())));
}
