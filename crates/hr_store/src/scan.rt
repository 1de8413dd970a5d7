//! Walks over many cells in order.
ghost use Rattle.std.specs.Prelude.{◌≡◌, true, ◌++◌, IfOk, OnOk, int_le};
ghost use Rattle.std.specs.List.{flat_map};
ghost use Rattle.hr_store.specs.Scans.{committed_in, committed_rows, key_seen, keys_seen, cells_between};

use crate::cell::{Cell, TxnId};
use crate::cells::Cells;
use crate::place::Place;
use hr_rel::{Seq, Table, TryCopy};
use std::alloc::{AllocError, Global};

/// The committed rows of a table, in ascending order of their keys. An error is want of memory.
pub fn committed_rows(alloc: Global, cells: &Cells, table: u32) -> Result<Table, AllocError>
    ensures { IfOk result (λ rows. rows ≡ committed_rows table cells.now.entries) }
{
    let mut rows = Seq::new(alloc);
    'cells: for (place, cell) in cells {
        push_committed(alloc, &mut rows, table, place, cell)?;
    }
    Ok(rows)
}

fn push_committed(
    alloc: Global,
    rows: &mut Table,
    table: u32,
    place: &Place,
    cell: &Cell,
) -> Result<(), AllocError>
    ensures { OnOk result (rows.new ≡ rows.old ++ committed_in table (place.now, cell.now)) }
{
    if place.table != table {
        return Ok(());
    }
    match &cell.committed {
        Some(row) => rows.push(row.try_copy(alloc)?),
        None => Ok(()),
    }
}

/// The keys between two of a table at which a transaction sees a row, in ascending order. An error is want of memory.
pub fn keys_seen(
    alloc: Global,
    cells: &Cells,
    txn: TxnId,
    table: u32,
    low: i64,
    high: i64,
) -> Result<Vec<i64>, AllocError>
    requires { int_le low high ≡ true }
    ensures { IfOk result (λ keys. keys.items ≡ keys_seen txn (cells_between table low high cells.now.entries)) }
{
    let mut keys = Vec::new(alloc);
    let first = Place::new(table, low);
    let last = Place::new(table, high);
    'cells: for (place, cell) in cells.range(first..=last) {
        push_seen(&mut keys, txn, place, cell)?;
    }
    Ok(keys)
}

fn push_seen(keys: &mut Vec<i64>, txn: TxnId, place: &Place, cell: &Cell) -> Result<(), AllocError>
    ensures { OnOk result (keys.new.items ≡ keys.old.items ++ key_seen txn (place.now, cell.now)) }
{
    match cell.seen(txn) {
        Some(_) => Ok(keys.push(place.key)?),
        None => Ok(()),
    }
}
