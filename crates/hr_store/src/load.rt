//! The rows with which a store starts.
ghost use Rattle.std.specs.Prelude.{◌≡◌, if◌then◌else◌, length, IfOk, OnOk};
ghost use Rattle.std.specs.BTreeMap.{is_at};
ghost use Rattle.hr_store.specs.Places.{place_cmp};
ghost use Rattle.hr_store.specs.Cells.{held_at};
ghost use Rattle.hr_store.specs.Loads.{committed_cell, loaded, all_loaded};

use crate::cell::Cell;
use crate::cells::Cells;
use crate::place::Place;
use hr_rel::{Row, Table, TryCopy};
use std::alloc::{AllocError, Global};

/// Commits the rows of each table, and tells how many tables there are. An error is want of memory.
pub fn load_tables(alloc: Global, cells: &mut Cells, tables: &[Table]) -> Result<u32, AllocError>
    ensures count { IfOk result (λ count. count ≡ length tables.now) }
    ensures loaded { OnOk result ((q : _) → held_at cells.new q ≡ all_loaded 0 tables.now q (held_at cells.old q)) }
{
    let mut number = 0u32;
    'tables: for table in tables {
        load(alloc, cells, number, table.as_slice())?;
        number = number.checked_add(1).ok_or(AllocError)?;
    }
    Ok(number)
}

/// Commits rows of a table.
fn load(alloc: Global, cells: &mut Cells, table: u32, rows: &[Row]) -> Result<(), AllocError>
    ensures { OnOk result ((q : _) → held_at cells.new q ≡ loaded table rows.now q (held_at cells.old q)) }
{
    'rows: for row in rows {
        if let Some(place) = Place::of(table, row) {
            commit_at(cells, place, row.try_copy(alloc)?)?;
        }
    }
    Ok(())
}

fn commit_at(cells: &mut Cells, place: Place, row: Row) -> Result<(), AllocError>
    ensures { OnOk result ((q : _) → held_at cells.new q ≡ (if is_at (place_cmp place) q then committed_cell row else held_at cells.old q)) }
{
    let cell = Cell {
        committed: Some(row),
        pending: None,
    };
    cells.insert(place, cell)?;
    Ok(())
}
