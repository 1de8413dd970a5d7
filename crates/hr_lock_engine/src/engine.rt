ghost use Rattle.std.specs.Prelude.{◌≡◌, ℕ, ℤ, [], ◌∷◌, ◌++◌, ◌==◌, if◌then◌else◌, true, false, refl, Some, None, IfOk, IfSome, IsSomeAnd};
ghost use Rattle.hr_rel.specs.Database.{Database};
ghost use Rattle.hr_rel.specs.Holds.{IsOrdered};
ghost use Rattle.hr_meaning.specs.SameAnswer.{SameAnswer};
ghost use Rattle.hr_answer.specs.Canonical.{IsCanonical};
ghost use Rattle.hr_engine.specs.Journal.{Journal, Ran};
ghost use Rattle.hr_engine.specs.Backend.{Extends, AnswersCanonically, is_lost_run};
ghost use Rattle.hr_engine.specs.declared.reply.RunReply.TheVariants as reply;
ghost use Rattle.hr_engine.specs.Base.{settled};
ghost use Rattle.hr_engine.specs.Exact.{Exact};
ghost use Rattle.hr_engine.specs.Rigorous.{Rigorous};
ghost use Rattle.hr_lock_engine.specs.Conflicts.{by_parts};
ghost use Rattle.hr_lock_engine.specs.Keeps.{WritesAreLocked, Keeps, legal};

use crate::{Locking, TxnStore};
use hr_answer::canonical;
use hr_engine::{Backend, EndReply, Lost, RunReply, TxnId};
use hr_locks::{Grant, LockTable};
use hr_rel::{Answer, Rows, Seq, Stmt};
use std::alloc::{AllocError, Global};

/// A database whose transactions lock what their statements need, each until it ends. It is never lost.
#[derive(Drop)]
pub struct LockEngine<N: Locking, S: TxnStore<N>> {
    store: S,
    locks: LockTable<N>,
    commits: u64,
    ghost locked: { WritesAreLocked N.covered (S.wrote store) locks },
}

impl<N: Locking, S: TxnStore<N>> LockEngine<N, S> {
    ghost use Rattle.hr_lock_engine.specs.Lends.{store_of};

    /// An engine over a store in which nobody has written.
    pub fn new(alloc: Global, store: S) -> LockEngine<N, S>
        requires idle { (u t : ℕ) (k : ℤ) → S.wrote store u t k ≡ false }
        requires ordered { IsOrdered (S.base store) }
        ensures { ⟦<LockEngine<N, S> as Backend>⟧.stands result (S.base store) [] }
    {
        LockEngine {
            store,
            locks: LockTable::new(alloc),
            commits: 0,
        }
    }

    /// The store that it stands over.
    pub fn store(&self) -> &S
        ensures { result.now ≡ store_of self.now }
    {
        &self.store
    }

    /// Each journal that an engine stands for is exact, statements conflicting where the rows that they need meet, and
    /// rigorous. It tells of no loss.
    pub fn journals(&self)
        ensures exact { (start : Database) (journal : Journal) → ⟦<LockEngine<N, S> as Backend>⟧.stands self.now start journal → Exact (by_parts N.parts) journal }
        ensures rigorous { (start : Database) (journal : Journal) → ⟦<LockEngine<N, S> as Backend>⟧.stands self.now start journal → Rigorous start journal }
        ensures never_lost { (start : Database) (journal : Journal) → ⟦<LockEngine<N, S> as Backend>⟧.stands self.now start journal → (settled journal).lost ≡ false }
    {}
}

impl<N: Locking, S: TxnStore<N>> Backend for LockEngine<N, S> {
    ghost stands = { λ e start journal. Keeps N.covered N.parts (S.base e.store) (S.seen e.store) e.locks e.commits start journal };

    ghost make = { λ e. S.kind };

    ghost is_honest = { λ e. true };

    ghost is_lost = { λ e. false };

    ghost losses = { λ e. 0 };

    ghost base = { λ e. S.base e.store };

    ghost honesty = { λ a b same. refl };

    ghost legal = { λ e start journal honest stands. legal N.covered N.parts (S.base e.store) (S.seen e.store) e.locks e.commits start journal stands };

    fn run(&mut self, alloc: Global, txn: TxnId, stmt: &Stmt) -> RunReply {
        let Ok(needs) = N::needs(alloc, stmt) else {
            return RunReply::NoMemory;
        };
        match self.locks.request(alloc, txn, &needs) {
            Ok(Grant::Granted) => {}
            Ok(Grant::Blocked(named)) => return RunReply::Blocked(Seq::from_vec(named)),
            Ok(Grant::Deadlock(cycle)) => return RunReply::Deadlock(Seq::from_vec(cycle)),
            Err(_) => return RunReply::NoMemory,
        }
        match self.store.run(alloc, txn, stmt) {
            Ok(answer) => RunReply::Done(in_order(answer)),
            Err(_) => {
                self.locks.undo(txn);
                RunReply::NoMemory
            }
        }
    }

    fn commit(&mut self, txn: TxnId) -> EndReply {
        self.store.commit(txn);
        self.locks.release(txn);
        self.commits = self.commits.saturating_add(1);
        EndReply::Done
    }

    fn rollback(&mut self, txn: TxnId) -> EndReply {
        self.store.rollback(txn);
        self.locks.release(txn);
        EndReply::Done
    }

    fn restart(&mut self) -> Result<u64, Lost> {
        self.store.forget();
        self.locks.release_all();
        Ok(self.commits)
    }

    fn dump(&self, alloc: Global) -> Result<Rows, AllocError> {
        self.store.dump(alloc)
    }
}

// The answer with its rows in canonical order.
fn in_order(mut answer: Answer) -> Answer
    ensures same { SameAnswer answer result }
    ensures canonical { IsCanonical result }
{
    canonical(&mut answer);
    answer
}
