//! What a core tells beside its history.
ghost use Rattle.std.specs.Prelude.{◌≡◌, ◌≤◌, Option, Some, IfOk, OnErr, IsTrue, is_some};
ghost use Rattle.hr_history.specs.declared.cause.Cause.{Cause};
ghost use Rattle.hr_history.specs.declared.phase.Phase.TheVariants as phase;
ghost use Rattle.hr_history.specs.Replies as history;
ghost use Rattle.hr_ledger.specs.Chronicle.{history_in};
ghost use Rattle.hr_core.specs.Seats.{seat_in, refusal_in, refusal_kept, waits};
ghost use Rattle.hr_core.specs.Copies.{reply_in};
ghost use Rattle.hr_core.specs.Suspects as suspicions;

use crate::copies::{cause_of, reply_of};
use crate::seat::{Seat, Shown};
use crate::whole::Core;
use hr_engine::{RunReply, TxnId};
use hr_history::{Ending, Phase, Reply};
use hr_ledger::Ledger;
use std::alloc::{AllocError, Global};

impl Core {
    /// The kept history.
    pub fn ledger(&self) -> &Ledger
        ensures { result.now ≡ self.now }
    {
        &self.ledger
    }

    /// How often the primary was suspected.
    pub fn suspects(&self) -> u64
        ensures { result ≡ suspicions.suspects (history_in self.now) }
    {
        self.suspects
    }

    /// Whether a session waits for a reply to its last Submit or AskCommit.
    pub fn is_waiting(&self, session: u32) -> bool
        requires first { 1 ≤ session }
        requires last { session ≤ self.now.sessions }
        ensures { result ≡ history.is_waiting (history.reply_to session (history_in self.now)) }
    {
        waits_at(&self.seats, session)
    }

    /// The reply to a session's last Submit or AskCommit, if there is one. Wants memory only where there is one.
    pub fn collect(&self, alloc: Global, session: u32) -> Result<Option<Reply>, AllocError>
        requires first { 1 ≤ session }
        requires last { session ≤ self.now.sessions }
        ensures ok { IfOk result (λ reply. reply ≡ reply_in (history.reply_to session (history_in self.now))) }
        ensures err { OnErr result (IsTrue (is_some (reply_in (history.reply_to session (history_in self.now))))) }
    {
        let seat = seat_at(&self.seats, session);
        let reply = reply_of(alloc, self.ledger.view().replies(), seat)?;
        Ok(reply)
    }

    /// How a transaction ended: none while it is open, and where there is no such transaction. Wants memory only where it was
    /// refused.
    pub fn ending(&self, alloc: Global, txn: TxnId) -> Result<Option<Ending>, AllocError>
        ensures ok { IfOk result (λ ending. ending ≡ history.ending_of txn (history_in self.now)) }
        ensures err { OnErr result (IsTrue (is_some (history.ending_of txn (history_in self.now)))) }
    {
        self.ledger.begun();
        let Some(_session) = self.ledger.session(txn) else {
            return Ok(None);
        };
        let phase = self.ledger.view().phase(txn);
        let why = refusal_at(&self.causes, txn);
        let ending = ending_of(alloc, self.ledger.view().replies(), phase, why)?;
        Ok(ending)
    }
}

// How a transaction in this phase ended, which was refused for this, if it was.
fn ending_of(
    alloc: Global,
    replies: &[RunReply],
    phase: Phase,
    why: Option<Shown>,
) -> Result<Option<Ending>, AllocError>
    ensures ok { IfOk result (λ ending. (refusal : Option Cause) → refusal_kept replies.now why ≡ Some refusal → ending ≡ history.ending_by phase refusal) }
    ensures err { OnErr result ((refusal : Option Cause) → refusal_kept replies.now why ≡ Some refusal → IsTrue (is_some (history.ending_by phase refusal))) }
{
    match phase {
        Phase::Active | Phase::Asked(_) => Ok(None),
        Phase::Logged(place) => Ok(Some(Ending::Committed(place))),
        Phase::RolledBack => Ok(Some(Ending::RolledBack)),
        Phase::Refused => refused_for(alloc, replies, why),
    }
}

// The ending of one that was refused for this.
fn refused_for(
    alloc: Global,
    replies: &[RunReply],
    why: Option<Shown>,
) -> Result<Option<Ending>, AllocError>
    ensures ok { IfOk result (λ ending. (refusal : Option Cause) → refusal_kept replies.now why ≡ Some refusal → ending ≡ history.ending_by phase.Refused refusal) }
    ensures err { OnErr result ((refusal : Option Cause) → refusal_kept replies.now why ≡ Some refusal → IsTrue (is_some (history.ending_by phase.Refused refusal))) }
{
    match why {
        Some(why) => {
            let cause = cause_of(alloc, replies, why)?;
            Ok(Some(Ending::Refused(cause)))
        }
        None => Ok(None),
    }
}

// The seat of a session.
fn seat_at(seats: &[Seat], session: u32) -> Seat
    requires { 1 ≤ session }
    ensures { result ≡ seat_in seats.now session }
{
    match seats.get((session - 1) as usize) {
        Some(seat) => *seat,
        None => Seat::NothingAsked,
    }
}

// Why a transaction was refused, if it was.
fn refusal_at(causes: &[Option<Shown>], txn: TxnId) -> Option<Shown>
    ensures { result ≡ refusal_in causes.now txn }
{
    if txn == 0 {
        return None;
    }
    match causes.get((txn - 1) as usize) {
        Some(why) => *why,
        None => None,
    }
}

// Whether a session waits.
fn waits_at(seats: &[Seat], session: u32) -> bool
    requires { 1 ≤ session }
    ensures { result ≡ waits (seat_in seats.now session) }
{
    waits(seat_at(seats, session))
}

fn waits(seat: Seat) -> bool
    ensures { result ≡ waits seat }
{
    match seat {
        Seat::Waiting => true,
        _ => false,
    }
}
