//! UPDATE, one row at a time. The assignments go from the left, and each is evaluated over the old row.
ghost use Rattle.std.specs.Prelude.{◌≡◌, ◌+◌, IfOk, slice_set};
ghost use Rattle.std.specs.Option.{option_copied};
ghost use Rattle.hr_meaning.specs.Exec.{taken, set_value, assigned, updated};

use crate::condition::is_kept;
use crate::expression::value;
use crate::tuple::Tuple;
use hr_rel::{ColumnDef, Row, RunError, Set, TryCopy, UpdateStmt, Value, refuses};
use std::alloc::{AllocError, Global};

/// A row of the table with these columns after an UPDATE, or the row's first error: an Overflow, or a NULL for a column
/// that takes none. A row of which the condition isn't true stays as it is. The old row isn't touched.
pub fn updated(
    alloc: Global,
    columns: &[ColumnDef],
    update: &UpdateStmt,
    row: &Row,
) -> Result<Result<Row, RunError>, AllocError>
    ensures { IfOk result (λ outcome. outcome ≡ updated columns.now update.now row.now) }
{
    if is_kept(&update.filter, Tuple::Row(row.as_slice())) {
        assigned(alloc, columns, row, update.sets.as_slice())
    } else {
        Ok(Ok(row.try_copy(alloc)?))
    }
}

/// A row after these assignments, whatever the condition, or its first error.
pub fn assigned(
    alloc: Global,
    columns: &[ColumnDef],
    old: &Row,
    sets: &[Set],
) -> Result<Result<Row, RunError>, AllocError>
    ensures { IfOk result (λ outcome. outcome ≡ assigned columns.now old.now sets.now old.now) }
{
    let mut row = old.try_copy(alloc)?;
    'sets: for set in sets {
        match set_value(columns, old.as_slice(), set)? {
            Ok(value) => set_column(&mut row, set.column, value),
            Err(error) => return Ok(Err(error)),
        }
    }
    Ok(Ok(row))
}

fn set_value(
    columns: &[ColumnDef],
    old: &[Value],
    set: &Set,
) -> Result<Result<Value, RunError>, AllocError>
    ensures { IfOk result (λ outcome. outcome ≡ set_value columns.now old.now set.now) }
{
    match value(&set.value, old) {
        Ok(value) => taken(columns.get(set.column as usize), set.column, value),
        Err(error) => Ok(Err(error)),
    }
}

// The value, if its column takes it.
fn taken(
    column: Option<&ColumnDef>,
    at: u32,
    value: Value,
) -> Result<Result<Value, RunError>, AllocError>
    ensures { IfOk result (λ outcome. outcome ≡ taken (option_copied column.entry) at value) }
{
    match column {
        Some(column) if refuses(column, &value) => Ok(Err(null_refused(at)?)),
        _ => Ok(Ok(value)),
    }
}

// Want of memory stands for a place that the error has no room for, of which no table has so many columns.
fn null_refused(at: u32) -> Result<RunError, AllocError>
    ensures { IfOk result (λ error. error ≡ RunError.NullRefused (at + 1)) }
{
    if at < u32::MAX {
        Ok(RunError::NullRefused(at + 1))
    } else {
        Err(AllocError)
    }
}

// A place that the row doesn't have is passed over.
fn set_column(row: &mut Row, column: u32, value: Value)
    ensures { row.new ≡ slice_set row.old column value }
{
    if (column as usize) < row.len() {
        row.set(column as usize, value);
    }
}
