//! Cells by their places.
ghost use Rattle.std.specs.Prelude.{◌≡◌, if◌then◌else◌, IsSome, OnOk};
ghost use Rattle.std.specs.BTreeMap.{get, is_at, IsOrdered};
ghost use Rattle.hr_store.specs.Places.{place_cmp};
ghost use Rattle.hr_store.specs.Cells.{is_empty, with_pending, ended, held_at};

use crate::cell::{Cell, TxnId};
use crate::ending::Ending;
use crate::place::Place;
use hr_rel::Row;
use std::alloc::AllocError;
use std::collections::BTreeMap;

/// The cells of a store, by their places.
pub type Cells = BTreeMap<Place, Cell>;

/// A place without a cell gets an empty one, so that a row can be put there without memory. An error is want of memory.
pub fn make_room(cells: &mut Cells, place: Place) -> Result<(), AllocError>
    ensures there { OnOk result (IsSome (get place_cmp cells.new place)) }
    ensures sorted { IsOrdered place_cmp cells.new }
    ensures stays { (q : _) → IsSome (get place_cmp cells.old q) → IsSome (get place_cmp cells.new q) }
    ensures same { (q : _) → held_at cells.new q ≡ held_at cells.old q }
{
    if cells.contains_key(&place) {
        are_in_order(cells);
        return Ok(());
    }
    let empty = Cell {
        committed: None,
        pending: None,
    };
    cells.insert(place, empty)?;
    Ok(())
}

/// Puts a pending row, or that there is none, into the cell at a place.
pub fn write_at(cells: &mut Cells, place: Place, txn: TxnId, row: Option<Row>)
    requires { IsSome (get place_cmp cells.old place) }
    ensures stays { (q : _) → IsSome (get place_cmp cells.old q) → IsSome (get place_cmp cells.new q) }
    ensures written { (q : _) → held_at cells.new q ≡ (if is_at (place_cmp place) q then with_pending txn row (held_at cells.old q) else held_at cells.old q) }
{
    let Some(cell) = cells.get_mut(&place) else {
        unreachable!()
    };
    cell.write(txn, row);
}

/// What a transaction wrote at a place is committed, or goes. A cell in which nothing is left goes too.
pub fn end_at(cells: &mut Cells, place: Place, txn: TxnId, ending: Ending)
    ensures { (q : _) → held_at cells.new q ≡ (if is_at (place_cmp place) q then ended ending txn (held_at cells.old q) else held_at cells.old q) }
{
    end_in_cell(cells, place, txn, ending);
    drop_if_empty(cells, place);
}

fn end_in_cell(cells: &mut Cells, place: Place, txn: TxnId, ending: Ending)
    ensures { (q : _) → held_at cells.new q ≡ (if is_at (place_cmp place) q then ended ending txn (held_at cells.old q) else held_at cells.old q) }
{
    if let Some(cell) = cells.get_mut(&place) {
        cell.end(txn, ending);
    }
}

fn drop_if_empty(cells: &mut Cells, place: Place)
    ensures { (q : _) → held_at cells.new q ≡ held_at cells.old q }
{
    if is_empty_at(cells, place) {
        cells.remove(&place);
    }
}

fn is_empty_at(cells: &Cells, place: Place) -> bool
    ensures { result ≡ is_empty (held_at cells.now place) }
{
    match cells.get(&place) {
        Some(cell) => cell.is_empty(),
        None => true,
    }
}

/// The places of the cells ascend, as the keys of every map do.
pub fn are_in_order(cells: &Cells)
    ensures { IsOrdered place_cmp cells.now }
{
    let _count = cells.len();
}
