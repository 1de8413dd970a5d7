//! What follows where the primary goes, where it replies with no answer, and where there is none.
ghost use Rattle.std.specs.Prelude.{◌≡◌, find};
ghost use Rattle.hr_history.specs.Processed.{phase_in};
ghost use Rattle.hr_history.specs.Transactions.{is_open};
ghost use Rattle.hr_history.specs.Jobs.{txn_numbers};
ghost use Rattle.hr_base.specs.Lists.{last_of, when};
ghost use Rattle.hr_history.specs.declared.entry.Event.TheVariants as event;
ghost use Rattle.hr_history.specs.Turn as told;
ghost use Rattle.hr_history.specs.Rules as history;
ghost use Rattle.hr_due.specs.FollowUps.{events_of};
ghost use Rattle.hr_due.specs.Turns.{turn_in};

use crate::follow_up::FollowUp;
use crate::turn::Turn;
use hr_engine::{RunReply, TxnId};
use hr_history::CauseAt;
use hr_pool::{is_open, is_primary};
use hr_primary::{candidate, caught_up};
use hr_progress::View;

/// Where the primary went in this turn, the lowest open transaction is refused.
pub fn primary_gone(view: &View, turn: &Turn) -> Option<FollowUp>
    ensures { events_of result ≡ history.primary_gone view.now (turn_in turn.now) }
{
    match (turn.went, first_open(view)) {
        (Some(gone), Some(txn)) => Some(FollowUp::Refuse {
            txn,
            cause: CauseAt::PrimaryChanged {
                from: gone.from,
                why: gone.why,
                at: gone.at,
            },
        }),
        _ => None,
    }
}

// The lowest open transaction.
fn first_open(view: &View) -> Option<TxnId>
    ensures { result ≡ find (λ t. is_open (phase_in view.now t)) (txn_numbers view.now) }
{
    match view.opened() {
        [txn, ..] => Some(*txn),
        [] => None,
    }
}

/// Where the turn's call is the primary's Deadlock or NoMemory to an open transaction, that is refused.
pub fn primary_reply(view: &View, turn: &Turn) -> Option<FollowUp>
    ensures { events_of result ≡ history.primary_reply view.now (turn_in turn.now) }
{
    match (view.fresh(), cause_by(view, turn)) {
        (Some(fresh), Some(cause)) => refuse_if(
            is_primary(view, fresh.replica) && is_open(view.phase(fresh.txn)),
            fresh.txn,
            cause,
        ),
        _ => None,
    }
}

// For which cause the last reply refuses its transaction, where it is the primary's.
fn cause_by(view: &View, turn: &Turn) -> Option<CauseAt>
    ensures { result ≡ history.cause_by view.now (turn_in turn.now) (last_of view.now.replies) }
{
    match view.last_reply() {
        Some(RunReply::Deadlock(_)) => Some(CauseAt::Deadlock { at: turn.start }),
        Some(RunReply::NoMemory) => Some(CauseAt::PrimaryMemory { at: turn.start }),
        _ => None,
    }
}

fn refuse_if(is_refused: bool, txn: TxnId, cause: CauseAt) -> Option<FollowUp>
    ensures { events_of result ≡ when is_refused (event.Refuse txn cause) }
{
    if is_refused {
        Some(FollowUp::Refuse { txn, cause })
    } else {
        None
    }
}

/// Where there is no primary, the candidate is the next, once it is caught up.
pub fn new_primary(view: &View) -> Option<FollowUp>
    ensures { (turn : told.Turn) → events_of result ≡ history.new_primary view.now turn }
{
    // the candidate is one of the replicas
    match (view.primary(), candidate(view)) {
        (None, Some(replica)) if caught_up(view, replica) => Some(FollowUp::NewPrimary { replica }),
        _ => None,
    }
}
