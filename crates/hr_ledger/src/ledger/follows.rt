//! What follows from a call.
ghost use Rattle.std.specs.Prelude.{◌≡◌, ℕ, Some, IsTrue};
ghost use Rattle.hr_history.specs.Rules as history;
ghost use Rattle.hr_history.specs.Faithful.{is_turn_of};
ghost use Rattle.hr_history.specs.Step.{view_step};
ghost use Rattle.hr_moves.specs.Fits.{Fits};
ghost use Rattle.hr_due.specs.FollowUps.{event_of, events_of};
ghost use Rattle.hr_ledger.specs.Chronicle.{history_in, and_entry};

use crate::events::followed;
use crate::ledger::Ledger;
use hr_due::{FollowUp, due};
use hr_entries::Stored;
use hr_progress::View;

impl Ledger {
    /// What is due, if something is.
    pub fn due(&self) -> Option<FollowUp>
        ensures { events_of result ≡ history.due self.now.f (history_in self.now) }
    {
        due(&self.view, &self.turn)
    }

    /// What is due happens, in the turn of this caller. It takes no memory.
    pub fn follow(&mut self, caller: u64, next: FollowUp)
        requires due { history.due self.old.f (history_in self.old) ≡ Some (event_of next) }
        requires turn { IsTrue (is_turn_of caller (history_in self.old)) }
        ensures { self.new ≡ and_entry caller (event_of next) self.old }
    {
        let Ledger {
            stored,
            turn,
            view,
            ..
        } = self;
        let place = stored.len() as u64;
        *turn = turn.after(view, next, place);
        apply(view, next);
        stored.push_reserved(Stored {
            caller,
            event: followed(next),
        });
    }
}

// What follows changes the view.
fn apply(view: &mut View, next: FollowUp)
    requires { Fits view.old (event_of next) }
    ensures { (place asks : ℕ) → view.new ≡ view_step view.old place asks (event_of next) }
{
    match next {
        FollowUp::Decide { txn } => view.decide(txn),
        FollowUp::Refuse { txn, .. } => view.refuse(txn),
        FollowUp::Convict { replica, .. } => view.convict(replica),
        FollowUp::NewPrimary { replica } => view.new_primary(replica),
        FollowUp::Preempt { replica, txn } => view.preempt(replica, txn),
    }
}
