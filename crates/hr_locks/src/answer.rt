//! What a request is answered, and what the answer does to the lists of a lock table.
ghost use Rattle.std.specs.Prelude.{◌≡◌, ℕ, ◌++◌, ◌==◌, if◌then◌else◌, IfOk, OnErr, IsTrue, option_map};
ghost use Rattle.hr_base.specs.Lists.{is_ascending};
ghost use Rattle.hr_locks.specs.Locks.{is_in_the_way};
ghost use Rattle.hr_locks.specs.Waits.{wait_seen, named_in};
ghost use Rattle.hr_locks.specs.Grants.{IsDue, locks_given, wait_given};
ghost use Rattle.hr_locks.specs.Table.{Held, undo_given};
ghost use Rattle.hr_locks.specs.Seen.{waiter_of, held_of, undo_of};

use crate::changes::{drop_kept_back, drop_wait, put_locks, put_wait};
use crate::conflicts::holders;
use crate::grant::LastGrant;
use crate::search::told_cycle;
use crate::wait::Wait;
use crate::{Grant, Lock, LockName, Need, TxnId};
use std::alloc::{AllocError, Global};

/// Whose wait is kept back for an undo.
pub fn waiter_of(last: Option<LastGrant>) -> Option<TxnId>
    ensures { result ≡ waiter_of last }
{
    match last {
        Some(last) => Some(last.txn),
        None => None,
    }
}

/// The answer that is due to a request.
pub fn answer_due<N: LockName>(
    alloc: Global,
    locks: &[Lock<N>],
    waits: &[Wait],
    last: Option<LastGrant>,
    txn: TxnId,
    needs: &[Need<N>],
) -> Result<Grant, AllocError>
    ensures { IfOk result (λ grant. IsDue (is_in_the_way N.meets locks.now needs.now) (wait_seen (waiter_of last) waits.now) txn grant) }
{
    let named = holders(alloc, locks, txn, needs)?;
    if named.is_empty() {
        return Ok(Grant::Granted);
    }
    match told_cycle(alloc, waits, waiter_of(last), txn, &named)? {
        Some(cycle) => Ok(Grant::Deadlock(cycle)),
        None => Ok(Grant::Blocked(named)),
    }
}

/// Does what an answer says, and tells the grant that can be undone from now on. All memory is taken before the first
/// change.
pub fn carry_out<N: LockName>(
    alloc: Global,
    locks: &mut Vec<Lock<N>>,
    waits: &mut Vec<Wait>,
    last: Option<LastGrant>,
    txn: TxnId,
    needs: &[Need<N>],
    grant: &Grant,
) -> Result<Option<LastGrant>, AllocError>
    requires { IsTrue (is_ascending (wait_given grant.now)) }
    ensures locks { IfOk result (λ new. locks.new.items ≡ locks.old.items ++ locks_given txn needs.now grant.now) }
    ensures waits { IfOk result (λ new. (t : ℕ) → wait_seen (waiter_of new) waits.new.items t ≡ (if t == txn then wait_given grant.now else wait_seen (waiter_of last) waits.old.items t)) }
    ensures undo { IfOk result (λ new. undo_of locks.new.items waits.new.items new ≡ undo_given txn (held_of locks.old.items waits.old.items last) grant.now) }
    ensures locks_stay { OnErr result (locks.new.items ≡ locks.old.items) }
    ensures waits_stay { OnErr result (waits.new.items ≡ waits.old.items) }
{
    let kept_back = waiter_of(last);
    match grant {
        Grant::Granted => {
            let granted = LastGrant {
                txn,
                locks: locks.len(),
            };
            put_locks(locks, txn, needs)?;
            drop_kept_back(waits, kept_back);
            Ok(Some(granted))
        }
        Grant::Blocked(named) => {
            put_wait(alloc, waits, kept_back, txn, named)?;
            Ok(None)
        }
        Grant::Deadlock(_) => {
            drop_wait(waits, kept_back, txn);
            Ok(None)
        }
    }
}
