//! What the votes say of a transaction.
ghost use Rattle.std.specs.Prelude.{◌≡◌, if◌then◌else◌, count_by};
ghost use Rattle.hr_history.specs.ReplicaNumbers.{replica_numbers};
ghost use Rattle.hr_history.specs.Transactions as history;
ghost use Rattle.hr_history.specs.Votes as votes;
ghost use Rattle.hr_moves.specs.Outcomes.{tally_in};
ghost use Rattle.hr_moves.specs.Sane.{IsReplica};

use hr_engine::TxnId;
use hr_moves::Tally;
use hr_progress::{Phase, View};

/// What the votes say of a transaction. A replica that is ready for it votes: it is live, the whole log is processed there,
/// and so is every statement of the transaction. `Accept` where its commit was asked for, and more than `f` vote for the
/// given answers; `Differ` where more than `f` vote for others, by the lowest of these; else `Undecided`.
pub fn tally(view: &View, txn: TxnId) -> Tally
    ensures { result ≡ tally_in view.now txn }
{
    if !is_asked(view.phase(txn)) {
        return Tally::Undecided;
    }
    if agreeing(view, txn) > view.f() {
        return Tally::Accept;
    }
    match contradicted_by(view, txn) {
        Some(by) => Tally::Differ {
            index: view.difference(by, txn),
            by,
        },
        None => Tally::Undecided,
    }
}

fn is_asked(phase: Phase) -> bool
    ensures { result ≡ history.is_asked phase }
{
    match phase {
        Phase::Asked(_) => true,
        Phase::Active | Phase::Logged(_) | Phase::RolledBack | Phase::Refused => false,
    }
}

// How many replicas are ready with the given answers.
fn agreeing(view: &View, txn: TxnId) -> u32
    ensures { result ≡ count_by (votes.agrees view.now txn) (replica_numbers view.now.f) }
{
    let end = 2 * view.f() + 1;
    let mut count = 0;
    'replicas: for replica in 0..end {
        count += vote(agrees(view, txn, replica));
    }
    count
}

// Whether a replica is ready with the given answers.
fn agrees(view: &View, txn: TxnId, replica: u32) -> bool
    requires { IsReplica view.now replica }
    ensures { result ≡ votes.agrees view.now txn replica }
{
    is_ready(view, txn, replica) && view.same_as_given(replica, txn)
}

// Whether a replica is live, has processed the whole log, and has answered every statement of a transaction.
fn is_ready(view: &View, txn: TxnId, replica: u32) -> bool
    requires { IsReplica view.now replica }
    ensures { result ≡ votes.is_ready view.now txn replica }
{
    view.is_live(replica as u64)
        && view.processed(replica) == view.commits()
        && view.is_whole(replica, txn)
}

// The lowest of the replicas that contradict the given answers.
fn contradicted_by(view: &View, txn: TxnId) -> Option<u32>
    ensures { result ≡ votes.contradicted_by view.now txn }
{
    let end = 2 * view.f() + 1;
    'replicas: for replica in 0..end {
        if contradicts(view, txn, replica) {
            return Some(replica);
        }
    }
    None
}

// Whether more than `f` replicas are ready with a replica's answers, and these aren't the given ones.
fn contradicts(view: &View, txn: TxnId, replica: u32) -> bool
    requires { IsReplica view.now replica }
    ensures { result ≡ votes.contradicts view.now txn replica }
{
    is_ready(view, txn, replica)
        && !view.same_as_given(replica, txn)
        && agreeing_with(view, txn, replica) > view.f()
}

// How many replicas are ready with the same answers as a replica.
fn agreeing_with(view: &View, txn: TxnId, replica: u32) -> u32
    ensures { result ≡ count_by (votes.agree_on view.now txn replica) (replica_numbers view.now.f) }
{
    let end = 2 * view.f() + 1;
    let mut count = 0;
    'replicas: for other in 0..end {
        count += vote(agree(view, txn, replica, other));
    }
    count
}

// Whether another replica is ready with the same answers.
fn agree(view: &View, txn: TxnId, replica: u32, other: u32) -> bool
    requires { IsReplica view.now other }
    ensures { result ≡ votes.agree_on view.now txn replica other }
{
    is_ready(view, txn, other) && view.same_there(replica, other, txn)
}

// A replica's vote.
fn vote(agrees: bool) -> u32
    ensures { result ≡ (if agrees then 1 else 0) }
{
    if agrees { 1 } else { 0 }
}
