//! The rows from before a change, beside each table.
ghost use Rattle.std.specs.Prelude.{◌≡◌, [], slice_set, ℕ, map, length, replicate, unwrap_or, slice_get, None, IfOk};
ghost use Rattle.hr_table_engine.specs.Undo.{is_of, is_open, written_table, saved_of, kept, cleared};

use hr_engine::TxnId;
use hr_rel::{Seq, Stmt, Table, TryCopy};
use std::alloc::{AllocError, Global};

/// The rows of a table from before a transaction changed them.
#[derive(Drop)]
pub struct Before {
    pub txn: TxnId,
    pub rows: Table,
}

/// No rows are kept of any of so many tables. An error is want of memory.
pub fn nothing_kept(alloc: Global, count: usize) -> Result<Vec<Option<Before>>, AllocError>
    ensures { IfOk result (λ slots. slots.items ≡ replicate count None) }
{
    let mut slots = Vec::new(alloc);
    'tables: for at in 0..count {
        let _place = at;
        slots.push(None)?;
    }
    Ok(slots)
}

/// The table that a statement changes.
pub fn written_table(stmt: &Stmt) -> Option<u32>
    ensures { result ≡ written_table stmt.now }
{
    match stmt {
        Stmt::Select(_) => None,
        Stmt::Insert(insert) => Some(insert.table),
        Stmt::Update(update) => Some(update.table),
        Stmt::Delete(delete) => Some(delete.table),
    }
}

/// A copy of the rows of the table that is changed, with the table's place, unless some are kept already. An error is want of
/// memory.
pub fn rows_to_keep(
    alloc: Global,
    slots: &[Option<Before>],
    tables: &[Table],
    written: Option<u32>,
) -> Result<Option<(usize, Table)>, AllocError>
    ensures { IfOk result (λ saved. saved ≡ saved_of slots.now tables.now written) }
{
    let Some(table) = written else {
        return Ok(None);
    };
    let at = table as usize;
    if !is_open(slots, at) {
        return Ok(None);
    }
    let rows = copy_at(alloc, tables, at)?;
    Ok(Some((at, rows)))
}

fn is_open(slots: &[Option<Before>], at: usize) -> bool
    ensures { result ≡ is_open (slice_get slots.now at) }
{
    matches!(slots.get(at), Some(None))
}

fn copy_at(alloc: Global, tables: &[Table], at: usize) -> Result<Table, AllocError>
    ensures { IfOk result (λ rows. rows ≡ unwrap_or (slice_get tables.now at) []) }
{
    match tables.get(at) {
        Some(rows) => rows.try_copy(alloc),
        None => Ok(Seq::new(alloc)),
    }
}

/// Keeps rows for a transaction, beside their table.
pub fn keep(slots: &mut Vec<Option<Before>>, txn: TxnId, saved: Option<(usize, Table)>)
    ensures { slots.new.items ≡ kept txn saved slots.old.items }
{
    if let Some((at, rows)) = saved {
        put_slot(slots, at, Some(Before { txn, rows }));
    }
}

// A place that isn't there is passed over.
fn put_slot(slots: &mut Vec<Option<Before>>, at: usize, slot: Option<Before>)
    ensures { slots.new.items ≡ slice_set slots.old.items at slot }
{
    if at < slots.len() {
        slots[at] = slot;
    }
}

/// Drops what is kept for a transaction.
pub fn drop_kept(slots: &mut [Option<Before>], txn: TxnId)
    ensures { slots.new ≡ map (cleared txn) slots.old }
{
    'slots: for slot in slots.iter_mut() {
        drop_slot(slot, txn);
    }
}

fn drop_slot(slot: &mut Option<Before>, txn: TxnId)
    ensures { slot.new ≡ cleared txn slot.old }
{
    if is_of(slot, txn) {
        *slot = None;
    }
}

/// Whether rows are kept here for a transaction.
pub fn is_of(slot: &Option<Before>, txn: TxnId) -> bool
    ensures { result ≡ is_of txn slot.now }
{
    match slot {
        Some(before) => before.txn == txn,
        None => false,
    }
}
