//! Who is in the way of a request.
ghost use Rattle.std.specs.Prelude.{[], ◌∷◌, ◌≡◌, ◌≢◌, ◌<◌, ◌≤◌, ◌||◌, ◌&&◌, ◌==◌, not, false, ℕ, length, slice_index, IfOk, OnOk, IsTrue};
ghost use Rattle.hr_base.specs.Lists.{has, is_ascending};
ghost use Rattle.hr_locks.specs.Locks.{is_conflict, is_in_the_way as is_holder, AreHolders};

use crate::{Lock, LockName, Need, TxnId};
use std::alloc::{AllocError, Global};

/// The others that hold what conflicts with one of the needs: each once, in ascending order.
pub fn holders<N: LockName>(
    alloc: Global,
    locks: &[Lock<N>],
    asker: TxnId,
    needs: &[Need<N>],
) -> Result<Vec<TxnId>, AllocError>
    ensures { IfOk result (λ them. AreHolders asker (is_holder N.meets locks.now needs.now) them.items) }
{
    let mut them = Vec::new(alloc);
    'needs: for need in needs {
        add_holders(&mut them, locks, asker, need)?;
    }
    Ok(them)
}

// Adds the others that hold what conflicts with a need. All locks are looked at for one need before the next, so that
// little is done for a lock that is passed over.
fn add_holders<N: LockName>(
    them: &mut Vec<TxnId>,
    locks: &[Lock<N>],
    asker: TxnId,
    need: &Need<N>,
) -> Result<(), AllocError>
    requires { IsTrue (is_ascending them.old.items) }
    ensures ascending { IsTrue (is_ascending them.new.items) }
    ensures added { OnOk result ((t : ℕ) → has them.new.items t ≡ (has them.old.items t || (not (t == asker) && is_holder N.meets locks.now (need.now ∷ []) t))) }
{
    'locks: for lock in locks {
        if is_in_the_way(lock, asker, need) {
            add(them, lock.txn)?;
        }
    }
    Ok(())
}

// Whether a lock of another conflicts with a need. Most names don't meet, so that is asked first.
fn is_in_the_way<N: LockName>(lock: &Lock<N>, asker: TxnId, need: &Need<N>) -> bool
    ensures { result ≡ (not (lock.now.txn == asker) && is_conflict N.meets lock.now.need need.now) }
{
    lock.need.conflicts(need) && lock.txn != asker
}

/// Puts a number where it belongs in an ascending list, unless it is there. Gives whether it is new.
pub fn add(them: &mut Vec<TxnId>, txn: TxnId) -> Result<bool, AllocError>
    requires { IsTrue (is_ascending them.old.items) }
    ensures ascending { IsTrue (is_ascending them.new.items) }
    ensures added { OnOk result ((t : ℕ) → has them.new.items t ≡ (has them.old.items t || (txn == t))) }
    ensures is_new { IfOk result (λ is_new. is_new ≡ not (has them.old.items txn)) }
{
    let at = place_of(them, txn);
    if stands_at(them, at, txn) {
        return Ok(false);
    }
    them.insert(at, txn)?;
    Ok(true)
}

/// Whether a number stands at a place.
pub fn stands_at(them: &[TxnId], at: usize, txn: TxnId) -> bool
    ensures there { IsTrue result → (at < length them.now) × (slice_index them.now at ≡ txn) }
    ensures elsewhere { result ≡ false → at < length them.now → slice_index them.now at ≢ txn }
{
    at < them.len() && them[at] == txn
}

/// How many of an ascending list are less than a number.
pub fn place_of(them: &[TxnId], txn: TxnId) -> usize
    requires { IsTrue (is_ascending them.now) }
    ensures within { result ≤ length them.now }
    ensures before { (k : ℕ) → k < result → slice_index them.now k < txn }
    ensures after { (k : ℕ) → result ≤ k → k < length them.now → txn ≤ slice_index them.now k }
{
    let mut low = 0;
    let mut high = them.len();
    'halves: while low < high {
        let middle = low + (high - low) / 2;
        if them[middle] < txn {
            low = middle + 1;
        } else {
            high = middle;
        }
    }
    low
}
