//! Preemptions.
ghost use Rattle.std.specs.Prelude.{◌≡◌};
ghost use Rattle.hr_history.specs.Rules as history;
ghost use Rattle.hr_history.specs.Turn.{Turn};
ghost use Rattle.hr_moves.specs.Sane.{IsReplica};
ghost use Rattle.hr_due.specs.FollowUps.{events_of};

use crate::follow_up::FollowUp;
use hr_pool::preempts;
use hr_progress::View;

/// At the lowest replica where one has to give way, the lowest such transaction does.
pub fn preempt(view: &View) -> Option<FollowUp>
    ensures { (turn : Turn) → events_of result ≡ history.preempt view.now turn }
{
    let end = 2 * view.f() + 1;
    'replicas: for replica in 0..end {
        match preemption_at(view, replica) {
            Some(next) => return Some(next),
            None => continue,
        }
    }
    None
}

// The lowest that has to give way at a replica.
fn preemption_at(view: &View, replica: u32) -> Option<FollowUp>
    requires { IsReplica view.now replica }
    ensures { (turn : Turn) → events_of result ≡ history.preemption_at view.now turn replica }
{
    match preempts(view, replica) {
        Some(txn) => Some(FollowUp::Preempt { replica, txn }),
        None => None,
    }
}
