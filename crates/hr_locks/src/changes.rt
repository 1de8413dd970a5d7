//! Changes of the lists that a lock table is made of. None takes memory but where its answer says so, and then nothing
//! has changed.
ghost use Rattle.std.specs.Prelude.{◌≡◌, ◌≤◌, ℕ, [], ◌∷◌, ◌++◌, ◌==◌, not, filter, map, OnOk, OnErr, IsTrue};
ghost use Rattle.std.specs.Vec.{vec_len, vec_capacity};
ghost use Rattle.hr_base.specs.Lists.{is_ascending};
ghost use Rattle.hr_locks.specs.Locks.{locks_on};
ghost use Rattle.hr_locks.specs.Waits.{without, is_the_one, pairs, seen_waits, waits_of_others};
ghost use Rattle.hr_locks.specs.Seen.{locks_before};

use crate::grant::LastGrant;
use crate::wait::Wait;
use crate::{Lock, LockName, Need, TxnId};
use std::alloc::{AllocError, Global};

/// Locks what a transaction needs.
pub fn put_locks<N: LockName>(
    locks: &mut Vec<Lock<N>>,
    txn: TxnId,
    needs: &[Need<N>],
) -> Result<(), AllocError>
    ensures put { OnOk result (locks.new.items ≡ locks.old.items ++ locks_on txn needs.now) }
    ensures err { OnErr result (locks.new.items ≡ locks.old.items) }
{
    locks.reserve(needs.len())?;
    'needs: for need in needs {
        let Ok(()) = locks.push(Lock { txn, need: *need }) else {
            unreachable!()
        };
    }
    Ok(())
}

/// Drops what a transaction has locked.
pub fn drop_locks<N: LockName>(locks: &mut Vec<Lock<N>>, txn: TxnId)
    ensures { locks.new.items ≡ filter (λ lock. not (lock.txn == txn)) locks.old.items }
{
    locks.retain(|lock| lock.txn != txn);
}

/// Drops the locks of the last grant.
pub fn take_back<N: LockName>(locks: &mut Vec<Lock<N>>, last: Option<LastGrant>)
    ensures { locks.new.items ≡ locks_before last locks.old.items }
{
    if let Some(grant) = last {
        locks.truncate(grant.locks);
    }
}

/// Whether this is the transaction whose wait is kept back.
fn is_kept_back(kept_back: Option<TxnId>, txn: TxnId) -> bool
    ensures { result ≡ is_the_one kept_back txn }
{
    match kept_back {
        Some(other) => other == txn,
        None => false,
    }
}

/// Drops the wait that was kept back for an undo.
pub fn drop_kept_back(waits: &mut Vec<Wait>, kept_back: Option<TxnId>)
    ensures { waits.new.items ≡ seen_waits kept_back waits.old.items }
{
    waits.retain(|wait| !is_kept_back(kept_back, wait.txn));
}

/// Drops the wait of a transaction, and the one that was kept back.
pub fn drop_wait(waits: &mut Vec<Wait>, kept_back: Option<TxnId>, txn: TxnId)
    ensures others { waits.new.items ≡ waits_of_others kept_back txn waits.old.items }
    ensures len { vec_len waits.new ≤ vec_len waits.old }
    ensures capacity { vec_capacity waits.new ≡ vec_capacity waits.old }
{
    waits.retain(|wait| !(wait.txn == txn || is_kept_back(kept_back, wait.txn)));
}

/// A transaction waits for these and for nobody else.
pub fn put_wait(
    alloc: Global,
    waits: &mut Vec<Wait>,
    kept_back: Option<TxnId>,
    txn: TxnId,
    names: &[TxnId],
) -> Result<(), AllocError>
    requires { IsTrue (is_ascending names.now) }
    ensures put { OnOk result (pairs waits.new.items ≡ pairs (waits_of_others kept_back txn waits.old.items) ++ (txn, names.now) ∷ []) }
    ensures err { OnErr result (waits.new.items ≡ waits.old.items) }
{
    let names = Vec::from_slice(alloc, names)?;
    waits.reserve(1)?;
    drop_wait(waits, kept_back, txn);
    let Ok(()) = waits.push(Wait { txn, names }) else {
        unreachable!()
    };
    Ok(())
}

/// Nobody waits for a transaction any more.
pub fn forget(waits: &mut [Wait], txn: TxnId)
    ensures { pairs waits.new ≡ map (λ w. (w.0, without txn w.1)) (pairs waits.old) }
{
    'waits: for wait in waits.iter_mut() {
        drop_name(wait, txn);
    }
}

fn drop_name(wait: &mut Wait, txn: TxnId)
    ensures names { wait.new.names.items ≡ without txn wait.old.names.items }
    ensures waiter { wait.new.txn ≡ wait.old.txn }
{
    wait.names.retain(|name| *name != txn);
}
