//! The rules in their order.
ghost use Rattle.std.specs.Prelude.{◌≡◌};
ghost use Rattle.hr_history.specs.Rules as history;
ghost use Rattle.hr_due.specs.FollowUps.{events_of};
ghost use Rattle.hr_due.specs.Turns.{turn_in};

use crate::convictions::{convict, owed_conviction};
use crate::follow_up::FollowUp;
use crate::preemptions::preempt;
use crate::refusals::{new_primary, primary_gone, primary_reply};
use crate::turn::Turn;
use crate::votes::{decide, differ};
use hr_progress::View;

/// What is due: the conviction that is owed for a contradiction, or what the first rule that applies tells. None where nothing
/// is due any more, so the turn ends.
///
/// The rules: a replica is convicted against which there is evidence; where the primary went, each open transaction is
/// refused; so is the one to which the primary replied with a cycle of waits, or that it has no memory; a transaction is
/// decided; one is refused whose given answers are contradicted; there is a new primary; and one gives way.
pub fn due(view: &View, turn: &Turn) -> Option<FollowUp>
    ensures { events_of result ≡ history.due_in view.now (turn_in turn.now) }
{
    if let Some(next) = owed_conviction(view, turn) {
        return Some(next);
    }
    if let Some(next) = convict(view, turn) {
        return Some(next);
    }
    if let Some(next) = primary_gone(view, turn) {
        return Some(next);
    }
    if let Some(next) = primary_reply(view, turn) {
        return Some(next);
    }
    if let Some(next) = decide(view) {
        return Some(next);
    }
    if let Some(next) = differ(view) {
        return Some(next);
    }
    if let Some(next) = new_primary(view) {
        return Some(next);
    }
    preempt(view)
}
