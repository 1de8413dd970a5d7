//! What follows from a call, until nothing does.
ghost use Rattle.std.specs.Prelude.{◌≡◌, Some, IsTrue};
ghost use Rattle.hr_history.specs.declared.entry.Event.TheVariants as event;
ghost use Rattle.hr_history.specs.Rules as history;
ghost use Rattle.hr_history.specs.Faithful.{is_turn_of};
ghost use Rattle.hr_due.specs.FollowUps.{event_of, events_of};
ghost use Rattle.hr_ledger.specs.Chronicle.{history_in, and_entry, HasBegun};
ghost use Rattle.hr_core.specs.Turns.{Ends, IsSilent};

use crate::refusals::{keep, shown_cause};
use crate::seat::{Seat, tell_if};
use crate::whole::Core;
use hr_engine::TxnId;
use hr_history::CauseAt;
use hr_ledger::FollowUp;

impl Core {
    /// All that is due happens, in the turn of this caller. It takes no memory.
    pub fn follow_all(&mut self, caller: u64)
        requires { IsTrue (is_turn_of caller (history_in self.old)) }
        ensures { Ends caller self.old self.new }
    {
        'turn: while let Some(next) = self.due() {
            self.follow(caller, next);
        }
    }

    // What is due, if something is.
    fn due(&self) -> Option<FollowUp>
        ensures due { events_of result ≡ history.due self.now.f (history_in self.now) }
        ensures begun { HasBegun self.now }
    {
        self.ledger.begun();
        self.ledger.due()
    }

    // What is due happens, and sessions are told of it.
    fn follow(&mut self, caller: u64, next: FollowUp)
        requires due { history.due self.old.f (history_in self.old) ≡ Some (event_of next) }
        requires turn { IsTrue (is_turn_of caller (history_in self.old)) }
        ensures { self.new ≡ and_entry caller (event_of next) self.old }
    {
        match next {
            FollowUp::Decide { txn } => self.decide(caller, txn),
            FollowUp::Refuse { txn, cause } => self.refuse(caller, txn, cause),
            _ => self.go_on(caller, next),
        }
    }

    // What is neither a decision nor a refusal happens. No session is told of it.
    fn go_on(&mut self, caller: u64, next: FollowUp)
        requires due { history.due self.old.f (history_in self.old) ≡ Some (event_of next) }
        requires turn { IsTrue (is_turn_of caller (history_in self.old)) }
        requires silent { IsSilent next }
        ensures { self.new ≡ and_entry caller (event_of next) self.old }
    {
        let Core { ledger, .. } = self;
        ledger.follow(caller, next);
    }

    // A transaction is decided, and its session told so.
    fn decide(&mut self, caller: u64, txn: TxnId)
        requires due { history.due self.old.f (history_in self.old) ≡ Some (event.Decide txn) }
        requires turn { IsTrue (is_turn_of caller (history_in self.old)) }
        ensures { self.new ≡ and_entry caller (event.Decide txn) self.old }
    {
        let Core { ledger, seats, .. } = self;
        let session = ledger.session(txn);
        ledger.follow(caller, FollowUp::Decide { txn });
        tell_if(seats, session, Seat::Committed(ledger.view().commits()));
    }

    // A transaction is refused, and its session told why.
    fn refuse(&mut self, caller: u64, txn: TxnId, cause: CauseAt)
        requires due { history.due self.old.f (history_in self.old) ≡ Some (event.Refuse txn cause) }
        requires turn { IsTrue (is_turn_of caller (history_in self.old)) }
        ensures { self.new ≡ and_entry caller (event.Refuse txn cause) self.old }
    {
        let Core {
            ledger,
            seats,
            causes,
            ..
        } = self;
        // who is refused is open, in a history that has begun rightly
        ledger.begun();
        let why = shown_cause(ledger, txn, cause);
        let session = ledger.session(txn);
        tell_if(seats, session, Seat::Refused(why));
        keep(causes, txn, why);
        ledger.follow(caller, FollowUp::Refuse { txn, cause });
    }
}
