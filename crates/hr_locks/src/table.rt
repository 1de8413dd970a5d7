//! The lock table.
use crate::answer::{answer_due, carry_out, waiter_of};
use crate::changes::{drop_locks, drop_wait, forget, take_back};
use crate::grant::LastGrant;
use crate::wait::Wait;
use crate::{Grant, Lock, LockName, Need, TxnId};
use std::alloc::{AllocError, Global};
use std::marker::Model;

/// Who holds what, and who waits for whom. Locks are held until they are released, all of a transaction at once.
///
/// Contracts see it as a `Table`: the locks in the order of granting, the waits, and, right after a grant, what stood
/// before it.
#[derive(Drop)]
pub struct LockTable<N: LockName> {
    locks: Vec<Lock<N>>,
    waits: Vec<Wait>,
    last: Option<LastGrant>,
}

impl<N: LockName> Model for LockTable<N> {
    ghost use Rattle.hr_locks.specs.Table.{Table};
    ghost use Rattle.hr_locks.specs.Seen.{seen_table};

    ghost Value = { Table N };

    ghost view = { λ t. seen_table t.locks.items t.waits.items t.last };

    ghost use Rattle.std.specs.Prelude.{IsTrue};
    ghost use Rattle.hr_locks.specs.Locks.{is_apart};

    ghost invariant = { λ t. IsTrue (is_apart N.meets t.locks.items) };
}

impl<N: LockName> LockTable<N> {
    ghost use Rattle.std.specs.Prelude.{◌≡◌, ℕ, [], ◌++◌, ◌==◌, not, filter, if◌then◌else◌, Option, Some, None, IfSome, IsSomeAnd, IfOk, OnErr, IsTrue};
    ghost use Rattle.hr_locks.specs.Locks.{is_in_the_way, is_apart};
    ghost use Rattle.hr_locks.specs.Waits.{without};
    ghost use Rattle.hr_locks.specs.Grants.{IsDue, locks_given, wait_given};
    ghost use Rattle.hr_locks.specs.Table.{empty, wait_of, undo_given};

    /// Nothing is locked, and nobody waits. Takes no memory.
    pub fn new(alloc: Global) -> LockTable<N>
        ensures { result ≡ empty }
    {
        LockTable {
            locks: Vec::new(alloc),
            waits: Vec::new(alloc),
            last: None,
        }
    }

    /// At no moment do two transactions hold what conflicts.
    pub fn no_conflicts(&self)
        ensures { IsTrue (is_apart N.meets self.now.held.locks) }
    {
        let _locks = &self.locks;
    }

    /// Locks all that a transaction needs, or nothing. In either case whom it waited for before is forgotten; where it is
    /// blocked, it waits for those that are told.
    ///
    /// An error is want of memory, and then nothing has changed.
    pub fn request(
        &mut self,
        alloc: Global,
        txn: TxnId,
        needs: &[Need<N>],
    ) -> Result<Grant, AllocError>
        ensures due { IfOk result (λ grant. IsDue (is_in_the_way N.meets self.old.held.locks needs.now) (wait_of self.old) txn grant) }
        ensures locks { IfOk result (λ grant. self.new.held.locks ≡ self.old.held.locks ++ locks_given txn needs.now grant) }
        ensures waits { IfOk result (λ grant. (t : ℕ) → wait_of self.new t ≡ (if t == txn then wait_given grant else wait_of self.old t)) }
        ensures undo { IfOk result (λ grant. self.new.undo ≡ undo_given txn self.old.held grant) }
        ensures err { OnErr result (self.new ≡ self.old) }
    {
        let grant = answer_due(alloc, &self.locks, &self.waits, self.last, txn, needs)?;
        self.last = carry_out(
            alloc,
            &mut self.locks,
            &mut self.waits,
            self.last,
            txn,
            needs,
            &grant,
        )?;
        Ok(grant)
    }

    /// Drops all locks of a transaction and its wait; and nobody waits for it any more, even if it asks again. Takes no
    /// memory.
    pub fn release(&mut self, txn: TxnId)
        ensures locks { self.new.held.locks ≡ filter (λ lock. not (lock.txn == txn)) self.old.held.locks }
        ensures waits { (t : ℕ) → wait_of self.new t ≡ (if t == txn then [] else without txn (wait_of self.old t)) }
        ensures undo { self.new.undo ≡ None }
    {
        drop_locks(&mut self.locks, txn);
        drop_wait(&mut self.waits, waiter_of(self.last), txn);
        forget(&mut self.waits, txn);
        self.last = None;
    }

    /// Drops all locks and waits. Takes no memory.
    pub fn release_all(&mut self)
        ensures { self.new ≡ empty }
    {
        self.locks.clear();
        self.waits.clear();
        self.last = None;
    }

    /// Takes the last grant back, where no other call came after it: locks and waits are as they were before. Takes no
    /// memory.
    pub fn undo(&mut self, txn: TxnId)
        requires { IsSomeAnd self.old.undo (λ before. before.0 ≡ txn) }
        ensures { IfSome self.old.undo (λ before. self.new ≡ record { held = before.1; undo = None }) }
    {
        take_back(&mut self.locks, self.last);
        self.last = None;
    }
}
