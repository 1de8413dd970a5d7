//! The rows of the engine.
ghost use Rattle.std.specs.Prelude.{◌≡◌, ◌<◌, if◌then◌else◌, ℕ, ℤ, List, [], ◌∷◌, None, option_map, true, false, length, get_or, slice_set, IfOk};
ghost use Rattle.std.specs.List.{list_all};
ghost use Rattle.hr_rel.specs.Database.{Database};
ghost use Rattle.hr_rel.specs.Holds.{IsSound, IsOrdered, holds};
ghost use Rattle.hr_lock_engine.specs.Views.{OthersSee};
ghost use Rattle.hr_table_engine.specs.Undo.{everyone, undone, committed_in, seen_in, wrote_in, slot_at, is_of, is_kept_ordered};
ghost use Rattle.hr_table_engine.specs.Laws.{unwritten_is_committed};

use crate::TableName;
use crate::before::{Before, drop_kept, is_of, keep, nothing_kept, rows_to_keep, written_table};
use hr_engine::TxnId;
use hr_lock_engine::TxnStore;
use hr_machine::Machine;
use hr_rel::{Answer, Catalog, Rows, Seq, Stmt, Table, TryCopy};
use std::alloc::{AllocError, Global};

/// Rows in place. A transaction changes them where they lie; before its first change of a table the rows of that table are
/// kept, and a rollback puts them back.
///
/// No two transactions may have changed one table.
pub struct TableStore {
    machine: Machine,
    slots: Vec<Option<Before>>,
    ghost sized: { length slots.items ≡ length machine.tables },
    ghost ordered: { IsOrdered machine },
    ghost kept: { list_all is_kept_ordered slots.items ≡ true },
}

impl Drop for TableStore {
    fn drop(self) {
        let TableStore {
            machine: _machine,
            slots: _slots,
        } = self;
    }
}

impl TableStore {
    /// A store of copies of these rows, all of them committed. An error is want of memory.
    pub fn new(alloc: Global, catalog: &Catalog, rows: &Rows) -> Result<TableStore, AllocError>
        requires sound { IsSound catalog.now }
        requires holds { holds catalog.now rows.now ≡ true }
        ensures base { IfOk result (λ store. ⟦<TableStore as TxnStore<TableName>>⟧.base store ≡ record { catalog = catalog.now; tables = rows.now }) }
        ensures idle { IfOk result (λ store. (u t : ℕ) (k : ℤ) → ⟦<TableStore as TxnStore<TableName>>⟧.wrote store u t k ≡ false) }
    {
        let slots = nothing_kept(alloc, rows.len())?;
        let machine = Machine::new(alloc, catalog.try_copy(alloc)?, rows.try_copy(alloc)?);
        Ok(TableStore { machine, slots })
    }

    // What a transaction has changed in the table at a place is undone.
    fn undo_table(&mut self, at: usize, txn: TxnId)
        requires { at < length self.old.slots.items }
        ensures base { committed_in self.new.slots.items self.new.machine ≡ committed_in self.old.slots.items self.old.machine }
        ensures others { OthersSee txn (seen_in self.old.slots.items self.old.machine) (seen_in self.new.slots.items self.new.machine) }
        ensures slots { self.new.slots.items ≡ (if is_of txn (slot_at self.old.slots.items at) then slice_set self.old.slots.items at None else self.old.slots.items) }
    {
        if !is_of(&self.slots[at], txn) {
            return;
        }
        if let Some(before) = self.slots[at].take() {
            let Before { rows, .. } = before;
            self.machine.put_table(at, rows);
        }
    }

    // Whoever has changed the table at a place.
    fn writer_of(&self, at: usize) -> Option<TxnId>
        requires { at < length self.now.slots.items }
        ensures { result ≡ option_map (λ b. b.txn) (slot_at self.now.slots.items at) }
    {
        match &self.slots[at] {
            Some(before) => Some(before.txn),
            None => None,
        }
    }

    // The committed rows of the table at a place.
    fn committed(&self, at: usize) -> &Table
        requires { at < length self.now.slots.items }
        ensures { result.now ≡ get_or (undone everyone self.now.slots.items self.now.machine.tables) at [] }
    {
        match &self.slots[at] {
            Some(before) => &before.rows,
            None => &self.machine.rows().as_slice()[at],
        }
    }
}

impl TxnStore<TableName> for TableStore {
    ghost base = { λ s. committed_in s.slots.items s.machine };

    ghost seen = { λ s. seen_in s.slots.items s.machine };

    ghost wrote = { λ s. wrote_in s.slots.items };

    ghost kind = { 0 ∷ [] };

    ghost unwritten = { λ s u t k none. unwritten_is_committed s.slots.items s.machine s.sized u t k none };

    fn run(&mut self, alloc: Global, txn: TxnId, stmt: &Stmt) -> Result<Answer, AllocError> {
        let tables = self.machine.rows().as_slice();
        let saved = rows_to_keep(alloc, &self.slots, tables, written_table(stmt))?;
        let answer = self.machine.run(stmt)?;
        keep(&mut self.slots, txn, saved);
        Ok(answer)
    }

    fn commit(&mut self, txn: TxnId) {
        drop_kept(&mut self.slots, txn);
    }

    fn rollback(&mut self, txn: TxnId) {
        'tables: for at in 0..self.slots.len() {
            self.undo_table(at, txn);
        }
    }

    fn forget(&mut self) {
        'tables: for at in 0..self.slots.len() {
            if let Some(txn) = self.writer_of(at) {
                self.undo_table(at, txn);
            }
        }
    }

    fn dump(&self, alloc: Global) -> Result<Rows, AllocError> {
        let mut tables = Seq::new(alloc);
        'tables: for at in 0..self.slots.len() {
            tables.push(self.committed(at).try_copy(alloc)?)?;
        }
        Ok(tables)
    }
}
