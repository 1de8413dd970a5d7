//! Changes of many cells at once.
ghost use Rattle.std.specs.Prelude.{◌≡◌, ℕ, true, if◌then◌else◌, IsSome, OnOk, ◌≤◌};
ghost use Rattle.std.specs.BTreeMap.{get, IsOrdered};
ghost use Rattle.hr_store.specs.Places.{place_cmp};
ghost use Rattle.hr_store.specs.Cells.{is_pending_of, ended, held_at, written_by, is_listed};
ghost use Rattle.hr_store.specs.Changes.{IsReady, is_any_at, after_put, is_key_at, after_remove};

use crate::cell::TxnId;
use crate::cells::{Cells, are_in_order, end_at, make_room, write_at};
use crate::ending::Ending;
use crate::place::Place;
use crate::written::{Written, list_at};
use hr_rel::Row;
use std::alloc::{AllocError, Global};

/// Makes ready for a write at a place: what follows takes no memory. An error is want of memory.
pub fn prepare(
    alloc: Global,
    cells: &mut Cells,
    written: &mut Written,
    txn: TxnId,
    place: Place,
) -> Result<(), AllocError>
    ensures ready { OnOk result (IsReady cells.new written.new txn place) }
    ensures sorted { IsOrdered place_cmp cells.new }
    ensures rooms { (q : _) → IsSome (get place_cmp cells.old q) → IsSome (get place_cmp cells.new q) }
    ensures lists { (u : ℕ) (q : _) → is_listed q (written_by written.old u) ≡ true → is_listed q (written_by written.new u) ≡ true }
    ensures same { (q : _) → held_at cells.new q ≡ held_at cells.old q }
{
    are_in_order(cells);
    list_at(alloc, written, txn, place)?;
    make_room(cells, place)
}

/// Makes ready for a write of these rows.
pub fn prepare_rows(
    alloc: Global,
    cells: &mut Cells,
    written: &mut Written,
    txn: TxnId,
    table: u32,
    rows: &[Row],
) -> Result<(), AllocError>
    ensures ready { OnOk result ((q : _) → is_any_at table rows.now q ≡ true → IsReady cells.new written.new txn q) }
    ensures sorted { IsOrdered place_cmp cells.new }
    ensures lists { (u : ℕ) (q : _) → is_listed q (written_by written.old u) ≡ true → is_listed q (written_by written.new u) ≡ true }
    ensures same { (q : _) → held_at cells.new q ≡ held_at cells.old q }
{
    'rows: for row in rows {
        if let Some(place) = Place::of(table, row) {
            prepare(alloc, cells, written, txn, place)?;
        }
    }
    are_in_order(cells);
    Ok(())
}

/// Makes ready for a write at these keys.
pub fn prepare_keys(
    alloc: Global,
    cells: &mut Cells,
    written: &mut Written,
    txn: TxnId,
    table: u32,
    keys: &[i64],
) -> Result<(), AllocError>
    ensures ready { OnOk result ((q : _) → is_key_at table keys.now q ≡ true → IsReady cells.new written.new txn q) }
    ensures sorted { IsOrdered place_cmp cells.new }
    ensures rooms { (q : _) → IsSome (get place_cmp cells.old q) → IsSome (get place_cmp cells.new q) }
    ensures lists { (u : ℕ) (q : _) → is_listed q (written_by written.old u) ≡ true → is_listed q (written_by written.new u) ≡ true }
    ensures same { (q : _) → held_at cells.new q ≡ held_at cells.old q }
{
    'keys: for key in keys {
        prepare(alloc, cells, written, txn, Place::new(table, *key))?;
    }
    are_in_order(cells);
    Ok(())
}

/// Puts rows beside what is committed. Takes no memory.
pub fn write_rows(cells: &mut Cells, txn: TxnId, table: u32, mut rows: Vec<Row>)
    requires { (q : _) → is_any_at table rows.items q ≡ true → IsSome (get place_cmp cells.old q) }
    ensures sorted { IsOrdered place_cmp cells.new }
    ensures put { (q : _) → held_at cells.new q ≡ after_put txn table rows.items q (held_at cells.old q) }
{
    'rows: while let Some(row) = rows.pop() {
        if let Some(place) = Place::of(table, &row) {
            write_at(cells, place, txn, Some(row));
        }
    }
    are_in_order(cells);
}

/// Puts beside what is committed at these keys that there is no row. Takes no memory.
pub fn write_keys(cells: &mut Cells, txn: TxnId, table: u32, keys: &[i64])
    requires { (q : _) → is_key_at table keys.now q ≡ true → IsSome (get place_cmp cells.old q) }
    ensures sorted { IsOrdered place_cmp cells.new }
    ensures stays { (q : _) → IsSome (get place_cmp cells.old q) → IsSome (get place_cmp cells.new q) }
    ensures removed { (q : _) → held_at cells.new q ≡ after_remove txn table keys.now q (held_at cells.old q) }
{
    'keys: for key in keys {
        write_at(cells, Place::new(table, *key), txn, None);
    }
    are_in_order(cells);
}

/// Ends a transaction, where these are the places that it has written. Takes no memory.
pub fn end_all(cells: &mut Cells, places: &[Place], txn: TxnId, ending: Ending)
    requires { (q : _) → is_pending_of txn (held_at cells.old q) ≡ true → is_listed q places.now ≡ true }
    ensures sorted { IsOrdered place_cmp cells.new }
    ensures ended { (q : _) → held_at cells.new q ≡ ended ending txn (held_at cells.old q) }
{
    'places: for place in places {
        end_at(cells, *place, txn, ending);
    }
    are_in_order(cells);
}
