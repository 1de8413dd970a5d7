//! When a reply that tells of waits is sound.
ghost use Rattle.std.specs.Prelude.{◌≡◌, ◌↔◌, ◌+◌, ◌<◌, ℕ, List, [], ◌∷◌, ◌++◌, length, drop, IsTrue};
ghost use Rattle.std.specs.List.{list_all};
ghost use Rattle.hr_engine.specs.Waits as engine;
ghost use Rattle.hr_history.specs.Evidence as history;
ghost use Rattle.hr_history.specs.Processed.{replica_in, runs_in, wait_in};

use crate::lists::{has, is_ascending, is_distinct};
use crate::walk::leads_to;
use hr_engine::TxnId;
use hr_progress::View;

/// Whether a Blocked reply is sound: it names some others that run, in ascending order, and from none of them does a chain
/// of waits lead to the asker.
pub fn is_sound_blocked(view: &View, replica: u32, asker: TxnId, named: &[TxnId]) -> bool
    ensures sound { IsTrue result ↔ engine.IsSoundBlocked (runs_in view.now replica) (wait_in view.now replica) asker named.now }
    ensures value { result ≡ history.is_sound_blocked (runs_in view.now replica) (wait_in view.now replica) (length (replica_in view.now replica).attempts) asker named.now }
{
    is_list_of_running(view, replica, asker, named) && !leads_to(view, replica, named, asker)
}

// Whether the list of a Blocked reply names some others that run, in ascending order.
fn is_list_of_running(view: &View, replica: u32, asker: TxnId, named: &[TxnId]) -> bool
    ensures { result ≡ engine.is_list_of_running (runs_in view.now replica) asker named.now }
{
    !named.is_empty() && is_ascending(named) && !has(named, asker) && all_run(view, replica, named)
}

/// Whether a Deadlock reply is sound: it begins with the asker, has at least two members and none twice, its other members
/// run, each member after the first waits for the next, and the last for the first.
pub fn is_sound_deadlock(view: &View, replica: u32, asker: TxnId, cycle: &[TxnId]) -> bool
    ensures { result ≡ engine.is_sound_deadlock (runs_in view.now replica) (wait_in view.now replica) asker cycle.now }
{
    match cycle {
        [] => false,
        [first, others @ ..] => {
            *first == asker
                && !others.is_empty()
                && is_distinct(cycle)
                && all_run(view, replica, others)
                && is_chain(view, replica, others, asker)
        }
    }
}

// Whether all of these run.
fn all_run(view: &View, replica: u32, txns: &[TxnId]) -> bool
    ensures { result ≡ list_all (runs_in view.now replica) txns.now }
{
    'txns: for txn in txns {
        if !view.runs(replica, *txn) {
            return false;
        }
    }
    true
}

// Whether each of a path waits for the next, and the last of it for this one.
fn is_chain(view: &View, replica: u32, path: &[TxnId], last: TxnId) -> bool
    ensures { result ≡ engine.is_chain (wait_in view.now replica) (path.now ++ last ∷ []) }
{
    'path: for place in 0..path.len() {
        if !view.still_waits(replica, path[place], one_behind(path, place, last)) {
            return false;
        }
    }
    true
}

// The one that stands behind a place of a path, where this is the one behind all of it.
fn one_behind(path: &[TxnId], place: usize, last: TxnId) -> TxnId
    requires { place < length path.now }
    ensures { (rest : List ℕ) × (drop (place + 1) path.now ++ last ∷ [] ≡ result ∷ rest) }
{
    if place + 1 < path.len() {
        path[place + 1]
    } else {
        last
    }
}
