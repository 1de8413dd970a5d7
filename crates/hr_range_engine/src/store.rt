//! The rows of the engine.
ghost use Rattle.std.specs.Prelude.{◌≡◌, ℕ, ℤ, [], ◌∷◌, true, false, length, replicate, IfOk};
ghost use Rattle.hr_base.specs.Counters.{shown};
ghost use Rattle.hr_rel.specs.Holds.{IsSound, IsOrdered, holds};
ghost use Rattle.hr_range_engine.specs.Shown.{IsOf, committed_base, seen_by, wrote_by};
ghost use Rattle.hr_range_engine.specs.Laws.{unwritten_is_committed};

use crate::statement::{change, changed_in, read};
use hr_engine::TxnId;
use hr_lock_engine::TxnStore;
use hr_machine::Machine;
use hr_plan::{Span, intervals};
use hr_rel::{Answer, Catalog, Rows, Seq, Stmt, TryCopy};
use hr_store::Store;
use std::alloc::{AllocError, Global};

/// Rows in cells. A statement runs on copies of the rows in its intervals of keys, and what it changes there is put into the
/// cells, beside what is committed.
///
/// No two transactions may have changed the row at one key.
pub struct RangeStore {
    // What statements look at, laid in place of what earlier ones have left there.
    machine: Machine,
    store: Store,
    ghost ordered: { IsOrdered machine },
    ghost whole: { IsOf machine.catalog store },
}

impl Drop for RangeStore {
    fn drop(self) {
        let RangeStore {
            machine: _machine,
            store: _store,
        } = self;
    }
}

impl RangeStore {
    ghost use Rattle.hr_range_engine.specs.Handed.{handed_by};

    /// A store of copies of these rows, all of them committed. An error is want of memory.
    pub fn new(alloc: Global, catalog: &Catalog, rows: &Rows) -> Result<RangeStore, AllocError>
        requires sound { IsSound catalog.now }
        requires holds { holds catalog.now rows.now ≡ true }
        ensures base { IfOk result (λ store. ⟦<RangeStore as TxnStore<Span>>⟧.base store ≡ record { catalog = catalog.now; tables = rows.now }) }
        ensures idle { IfOk result (λ store. (u t : ℕ) (k : ℤ) → ⟦<RangeStore as TxnStore<Span>>⟧.wrote store u t k ≡ false) }
    {
        let store = Store::new(alloc, rows)?;
        let nothing = no_rows(alloc, catalog.tables.len())?;
        let machine = Machine::new(alloc, catalog.try_copy(alloc)?, nothing);
        Ok(RangeStore { machine, store })
    }

    /// How many keys were handed out since the start; it stands still at its last number. Takes no memory.
    pub fn handed(&self) -> u64
        ensures { result ≡ handed_by self.now }
    {
        self.store.handed()
    }
}

// No rows of so many tables.
fn no_rows(alloc: Global, count: usize) -> Result<Rows, AllocError>
    ensures { IfOk result (λ tables. tables ≡ replicate count []) }
{
    let mut tables = Seq::new(alloc);
    'tables: for at in 0..count {
        let _place = at;
        tables.push(Seq::new(alloc))?;
    }
    Ok(tables)
}

impl TxnStore<Span> for RangeStore {
    ghost base = { λ s. committed_base s.machine.catalog s.store };

    ghost seen = { λ s. seen_by s.store };

    ghost wrote = { λ s. wrote_by s.store };

    ghost kind = { 1 ∷ [] };

    ghost unwritten = { λ s u t k none. unwritten_is_committed s.machine.catalog s.store s.whole.rows u t k none };

    fn run(&mut self, alloc: Global, txn: TxnId, stmt: &Stmt) -> Result<Answer, AllocError> {
        let needs = intervals(alloc, stmt)?;
        if let Some(span) = changed_in(&needs) {
            return change(alloc, &mut self.machine, &mut self.store, txn, stmt, span);
        }
        read(alloc, &mut self.machine, &mut self.store, txn, stmt, &needs)
    }

    fn commit(&mut self, txn: TxnId) {
        self.store.commit(txn);
    }

    fn rollback(&mut self, txn: TxnId) {
        self.store.rollback(txn);
    }

    fn forget(&mut self) {
        self.store.forget();
    }

    fn dump(&self, alloc: Global) -> Result<Rows, AllocError> {
        self.store.dump(alloc)
    }
}
