//! What the rules look at beside the view: the turn so far.
ghost use Rattle.std.specs.Prelude.{◌≡◌, Option};
ghost use Rattle.hr_history.specs.Turn as history;
ghost use Rattle.hr_history.specs.Replicas as replicas;
ghost use Rattle.hr_history.specs.declared.entry.Event.TheVariants as event;
ghost use Rattle.hr_moves.specs.TurnSteps.{turn_step, went_after, bad_count_after};
ghost use Rattle.hr_moves.specs.Sane.{IsReplica};
ghost use Rattle.hr_due.specs.FollowUps.{event_of};
ghost use Rattle.hr_due.specs.Turns.{turn_in, quiet_turn, gone_in, count_in, contradiction_in};
ghost use Rattle.std.specs.Option.{option_map};

use crate::follow_up::FollowUp;
use hr_engine::{EndReply, RunReply, TxnId};
use hr_history::{CauseAt, JobReply, Why};
use hr_pool::is_primary;
use hr_progress::View;
use hr_replay::{Settled, settle};

/// A turn, as far as it has gone.
#[derive(Clone, Copy, Debug, PartialEq, Eq)]
pub struct Turn {
    /// The place of the turn's call in the history, from 0.
    pub start: u64,
    /// The primary that went in this turn, if one did.
    pub went: Option<Gone>,
    /// What the call told at a restart, if no correct replica tells it.
    pub bad_count: Option<BadCount>,
    /// For which contradiction the primary is to be convicted now: that of the refusal that stands last.
    pub owed: Option<Contradiction>,
}

/// A primary that went, and why; `at` is the place of the entry by which it did.
#[derive(Clone, Copy, Debug, PartialEq, Eq)]
pub struct Gone {
    pub from: u32,
    pub why: Why,
    pub at: u64,
}

/// A count that a replica told at a restart.
#[derive(Clone, Copy, Debug, PartialEq, Eq)]
pub struct BadCount {
    pub replica: u32,
    pub count: u64,
}

/// A given answer that is contradicted.
#[derive(Clone, Copy, Debug, PartialEq, Eq)]
pub struct Contradiction {
    pub txn: TxnId,
    pub index: u32,
}

impl Turn {
    /// The turn of a call at this place that is neither a reply, nor a restart, nor a suspicion. Before the first call all is
    /// as if one stood at 0.
    pub fn of_call(place: u64) -> Turn
        ensures { turn_in result ≡ quiet_turn place }
    {
        Turn {
            start: place,
            went: None,
            bad_count: None,
            owed: None,
        }
    }

    /// The turn of a reply at this place; before it the view was this.
    pub fn of_give(view: &View, replica: u32, reply: &JobReply, place: u64) -> Turn
        ensures { (turn : history.Turn) → turn_in result ≡ turn_step view.now turn place (event.Give replica reply.now) }
    {
        let went = lost_primary(view, replica, reply, place);
        Turn {
            start: place,
            went,
            bad_count: None,
            owed: None,
        }
    }

    /// The turn of a restart at this place; before it the view was this.
    pub fn of_restart(view: &View, replica: u32, count: u64, place: u64) -> Turn
        requires { IsReplica view.now replica }
        ensures { (turn : history.Turn) → turn_in result ≡ turn_step view.now turn place (event.Restarted replica count) }
    {
        let bad_count = bad_count(view, replica, count);
        Turn {
            start: place,
            went: None,
            bad_count,
            owed: None,
        }
    }

    /// The turn of a suspicion at this place; before it the view was this.
    pub fn of_suspect(view: &View, place: u64) -> Turn
        ensures { (turn : history.Turn) → turn_in result ≡ turn_step view.now turn place event.Suspect }
    {
        let went = suspected_primary(view, place);
        Turn {
            start: place,
            went,
            bad_count: None,
            owed: None,
        }
    }

    /// The turn after one that follows, at this place; before it the view was this.
    pub fn after(&self, view: &View, next: FollowUp, place: u64) -> Turn
        ensures { turn_in result ≡ turn_step view.now (turn_in self.now) place (event_of next) }
    {
        Turn {
            start: self.start,
            went: went_after(view, self.went, next, place),
            bad_count: self.bad_count,
            owed: owed_after(next),
        }
    }
}

// The primary goes if it tells that it is lost.
fn lost_primary(view: &View, replica: u32, reply: &JobReply, place: u64) -> Option<Gone>
    ensures { (before : Option history.Gone) → option_map gone_in result ≡ went_after view.now place (event.Give replica reply.now) before }
{
    if tells_loss(reply) && is_primary(view, replica) {
        Some(Gone {
            from: replica,
            why: Why::Lost,
            at: place,
        })
    } else {
        None
    }
}

// The primary goes if it is suspected.
fn suspected_primary(view: &View, place: u64) -> Option<Gone>
    ensures { (before : Option history.Gone) → option_map gone_in result ≡ went_after view.now place event.Suspect before }
{
    match view.primary() {
        Some(from) => Some(Gone {
            from,
            why: Why::Suspected,
            at: place,
        }),
        None => None,
    }
}

// The primary goes if it is convicted.
fn went_after(view: &View, went: Option<Gone>, next: FollowUp, place: u64) -> Option<Gone>
    ensures { option_map gone_in result ≡ went_after view.now place (event_of next) (option_map gone_in went) }
{
    match next {
        FollowUp::Convict { replica, .. } if is_primary(view, replica) => Some(Gone {
            from: replica,
            why: Why::Convicted,
            at: place,
        }),
        _ => went,
    }
}

// A count that no correct replica tells.
fn bad_count(view: &View, replica: u32, count: u64) -> Option<BadCount>
    requires { IsReplica view.now replica }
    ensures { (before : Option history.Counted) → option_map count_in result ≡ bad_count_after view.now (event.Restarted replica count) before }
{
    match settle(view, replica, count) {
        Settled::At(_) => None,
        Settled::Wrong => Some(BadCount { replica, count }),
    }
}

// For a refusal because of a contradiction a conviction is owed.
fn owed_after(next: FollowUp) -> Option<Contradiction>
    ensures { option_map contradiction_in result ≡ history.owed_after (event_of next) }
{
    match next {
        FollowUp::Refuse {
            txn,
            cause: CauseAt::Differ { index, .. },
        } => Some(Contradiction { txn, index }),
        _ => None,
    }
}

// Whether a reply tells of a loss.
fn tells_loss(reply: &JobReply) -> bool
    ensures { result ≡ replicas.tells_loss reply.now }
{
    match reply {
        JobReply::Ran(RunReply::Lost) => true,
        JobReply::Ran(_) => false,
        JobReply::Ended(EndReply::Lost) => true,
        JobReply::Ended(EndReply::Done) => false,
        JobReply::StillLost => true,
    }
}
