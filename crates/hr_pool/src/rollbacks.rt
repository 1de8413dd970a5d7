//! Rollbacks: which transaction stops first at a replica.
ghost use Rattle.std.specs.Prelude.{◌≡◌, ◌||◌, find};
ghost use Rattle.hr_history.specs.Transactions as history;
ghost use Rattle.hr_history.specs.Processed.{phase_in, attempt_in};
ghost use Rattle.hr_history.specs.Jobs.{txn_numbers, is_to_roll_back};
ghost use Rattle.hr_moves.specs.Sane.{IsReplica};

use hr_engine::TxnId;
use hr_progress::{Phase, View};

/// The lowest transaction that is to be rolled back at a replica: it has something to roll back there, and is refused, rolled
/// back by its session, or was preempted there.
pub fn to_roll_back(view: &View, replica: u32) -> Option<TxnId>
    requires { IsReplica view.now replica }
    ensures { result ≡ find (is_to_roll_back view.now replica) (txn_numbers view.now) }
{
    first_to_stop(view, replica, view.touched(replica))
}

// The first of these that is refused, rolled back by its session, or was preempted at a replica.
fn first_to_stop(view: &View, replica: u32, txns: &[TxnId]) -> Option<TxnId>
    ensures { result ≡ find (λ t. history.is_ended (phase_in view.now t) || (attempt_in view.now replica t).preempted) txns.now }
{
    'txns: for txn in txns {
        if is_ended(view.phase(*txn)) || view.is_preempted(replica, *txn) {
            return Some(*txn);
        }
    }
    None
}

// Whether a phase is that of a transaction that was refused or rolled back.
pub fn is_ended(phase: Phase) -> bool
    ensures { result ≡ history.is_ended phase }
{
    match phase {
        Phase::RolledBack | Phase::Refused => true,
        Phase::Active | Phase::Asked(_) | Phase::Logged(_) => false,
    }
}
