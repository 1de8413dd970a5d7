//! Preemption: which transaction gives way at a replica.
ghost use Rattle.std.specs.Prelude.{◌≡◌, ◌&&◌, ◌||◌, not, find};
ghost use Rattle.std.specs.List.{list_any, list_all};
ghost use Rattle.hr_base.specs.Lists.{has};
ghost use Rattle.hr_history.specs.Preemption as history;
ghost use Rattle.hr_history.specs.Processed.{live_in, is_primary};
ghost use Rattle.hr_history.specs.Ranks.{ranks_before};
ghost use Rattle.hr_history.specs.Transactions.{is_asked, is_logged};
ghost use Rattle.hr_moves.specs.Sane.{IsReplica};
ghost use Rattle.hr_pool.specs.Searched.{gives_way_here};

use crate::rollbacks::is_ended;
use crate::runs::is_primary;
use hr_engine::TxnId;
use hr_progress::{Phase, View};

/// The lowest transaction to preempt at a replica that is live and isn't the primary: it runs there, isn't about to stop
/// anyway, and one that is decided or asked for ranks before it and waits for it, or it is the last of a cycle of waits.
pub fn preempts(view: &View, replica: u32) -> Option<TxnId>
    requires { IsReplica view.now replica }
    ensures { result ≡ history.preempted_next view.now replica }
{
    view.sane();
    if is_live_secondary(view, replica) {
        first_to_give_way(view, replica, view.touched(replica))
    } else {
        None
    }
}

// Whether a replica is live, and isn't the primary.
fn is_live_secondary(view: &View, replica: u32) -> bool
    ensures { result ≡ (live_in view.now replica && not (is_primary view.now replica)) }
{
    view.is_live(replica as u64) && !is_primary(view, replica)
}

// The first of these that gives way.
fn first_to_give_way(view: &View, replica: u32, txns: &[TxnId]) -> Option<TxnId>
    requires { IsReplica view.now replica }
    ensures { result ≡ find (gives_way_here view.now replica) txns.now }
{
    'txns: for txn in txns {
        if gives_way(view, replica, *txn) {
            return Some(*txn);
        }
    }
    None
}

// Whether a transaction runs, isn't about to stop anyway, and is in the way of another, or the last of a cycle of waits.
fn gives_way(view: &View, replica: u32, txn: TxnId) -> bool
    requires { IsReplica view.now replica }
    ensures { result ≡ gives_way_here view.now replica txn }
{
    let txns = view.touched(replica);
    view.runs(replica, txn)
        && stays(view, replica, txn)
        && (holds_up_one(view, replica, txn, txns) || is_last_of_one(view, replica, txn, txns))
}

// Whether a transaction isn't about to stop anyway.
fn stays(view: &View, replica: u32, txn: TxnId) -> bool
    ensures { result ≡ history.stays view.now replica txn }
{
    !is_ended(view.phase(txn)) && !view.is_preempted(replica, txn)
}

// Whether one of these waits for a transaction and comes before it.
fn holds_up_one(view: &View, replica: u32, txn: TxnId, txns: &[TxnId]) -> bool
    ensures { result ≡ list_any (history.is_held_up view.now replica txn) txns.now }
{
    'txns: for other in txns {
        if holds_up(view, replica, txn, *other) {
            return true;
        }
    }
    false
}

// Whether another is decided or asked for, ranks before a transaction, and waits for it.
fn holds_up(view: &View, replica: u32, txn: TxnId, other: TxnId) -> bool
    ensures { result ≡ history.is_held_up view.now replica txn other }
{
    is_logged_or_asked(view.phase(other))
        && view.rank_before(other, txn)
        && view.still_waits(replica, other, txn)
}

// Whether a transaction is the last of a cycle of waits that one of these was told of.
fn is_last_of_one(view: &View, replica: u32, txn: TxnId, txns: &[TxnId]) -> bool
    ensures { result ≡ list_any (history.is_last_of_cycle view.now replica txn) txns.now }
{
    'txns: for other in txns {
        if is_last_of_cycle(view, replica, txn, *other) {
            return true;
        }
    }
    false
}

// Whether the cycle of waits that another was told of stands, none of it is about to stop anyway, and a transaction ranks
// last in it.
fn is_last_of_cycle(view: &View, replica: u32, txn: TxnId, other: TxnId) -> bool
    ensures { result ≡ history.is_last_of_cycle view.now replica txn other }
{
    match view.standing(replica, other) {
        Some(cycle) => all_stay(view, replica, cycle) && is_last_in_rank(view, replica, txn, cycle),
        None => false,
    }
}

fn all_stay(view: &View, replica: u32, txns: &[TxnId]) -> bool
    ensures { result ≡ list_all (history.stays view.now replica) txns.now }
{
    'txns: for txn in txns {
        if !stays(view, replica, *txn) {
            return false;
        }
    }
    true
}

// Whether a transaction is of the list, and no other of it ranks after it.
fn is_last_in_rank(view: &View, replica: u32, txn: TxnId, txns: &[TxnId]) -> bool
    ensures { result ≡ history.is_last_in_rank view.now replica txn txns.now }
{
    has(txns, txn) && none_after(view, txn, txns)
}

// Whether none of these ranks after a transaction.
fn none_after(view: &View, txn: TxnId, txns: &[TxnId]) -> bool
    ensures { result ≡ list_all (λ t. not (ranks_before view.now txn t)) txns.now }
{
    'txns: for other in txns {
        if view.rank_before(txn, *other) {
            return false;
        }
    }
    true
}

fn has(txns: &[TxnId], txn: TxnId) -> bool
    ensures { result ≡ has txns.now txn }
{
    'txns: for one in txns {
        if *one == txn {
            return true;
        }
    }
    false
}

fn is_logged_or_asked(phase: Phase) -> bool
    ensures { result ≡ (is_logged phase || is_asked phase) }
{
    match phase {
        Phase::Logged(_) | Phase::Asked(_) => true,
        Phase::Active | Phase::RolledBack | Phase::Refused => false,
    }
}
