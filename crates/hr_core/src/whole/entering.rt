//! The first entry of each turn: the caller's call.
ghost use Rattle.std.specs.Prelude.{◌≡◌, ◌+◌, ◌<◌, length, option_and_then, IfOk, OnOk, OnErr};
ghost use Rattle.hr_history.specs.declared.entry.Event.TheVariants as event;
ghost use Rattle.hr_history.specs.Transactions as history;
ghost use Rattle.hr_ledger.specs.Chronicle.{history_in, IsQuiet, IsAllowed, and_entry};

use crate::seat::{Seat, tell_if, wait_if};
use crate::whole::Core;
use hr_engine::TxnId;
use hr_history::{Job, JobReply};
use hr_ledger::Ledger;
use hr_rel::Stmt;
use std::alloc::{AllocError, Global};

impl Core {
    // A session begins a transaction.
    pub fn enter_begin(
        &mut self,
        alloc: Global,
        caller: u64,
        session: u32,
    ) -> Result<TxnId, AllocError>
        requires quiet { IsQuiet self.old }
        requires allowed { IsAllowed caller (event.Begin session (length (history.begun (history_in self.old)) + 1)) self.old }
        ensures txn { IfOk result (λ txn. txn ≡ length (history.begun (history_in self.old)) + 1) }
        ensures ok { OnOk result (self.new ≡ and_entry caller (event.Begin session (length (history.begun (history_in self.old)) + 1)) self.old) }
        ensures err { OnErr result (self.new ≡ self.old) }
    {
        let Core { ledger, causes, .. } = self;
        causes.reserve(1)?;
        let txn = ledger.begin(alloc, caller, session)?;
        causes.push_reserved(None);
        Ok(txn)
    }

    // A session submits a statement, and waits.
    pub fn enter_submit(&mut self, caller: u64, txn: TxnId, stmt: Stmt) -> Result<u32, AllocError>
        requires quiet { IsQuiet self.old }
        requires allowed { IsAllowed caller (event.Submit txn (length (history.submits txn (history_in self.old)) + 1) stmt) self.old }
        ensures index { IfOk result (λ index. index ≡ length (history.submits txn (history_in self.old)) + 1) }
        ensures ok { OnOk result (self.new ≡ and_entry caller (event.Submit txn (length (history.submits txn (history_in self.old)) + 1) stmt) self.old) }
        ensures err { OnErr result (self.new ≡ self.old) }
    {
        let Core { ledger, seats, .. } = self;
        let session = ledger.session(txn);
        let index = ledger.submit(caller, txn, stmt)?;
        wait_if(seats, session);
        Ok(index)
    }

    // A session asks for a commit, and waits.
    pub fn enter_ask_commit(&mut self, caller: u64, txn: TxnId) -> Result<(), AllocError>
        requires quiet { IsQuiet self.old }
        requires allowed { IsAllowed caller (event.AskCommit txn) self.old }
        ensures ok { OnOk result (self.new ≡ and_entry caller (event.AskCommit txn) self.old) }
        ensures err { OnErr result (self.new ≡ self.old) }
    {
        let Core { ledger, seats, .. } = self;
        let session = ledger.session(txn);
        ledger.ask_commit(caller, txn)?;
        wait_if(seats, session);
        Ok(())
    }

    // A session has its transaction rolled back.
    pub fn enter_ask_rollback(&mut self, caller: u64, txn: TxnId)
        requires quiet { IsQuiet self.old }
        requires allowed { IsAllowed caller (event.AskRollback txn) self.old }
        ensures { self.new ≡ and_entry caller (event.AskRollback txn) self.old }
    {
        let Core { ledger, .. } = self;
        ledger.ask_rollback(caller, txn);
    }

    // A replica is given its job.
    pub fn enter_take(
        &mut self,
        alloc: Global,
        caller: u64,
        replica: u32,
        job: Job,
    ) -> Result<(), AllocError>
        requires quiet { IsQuiet self.old }
        requires allowed { IsAllowed caller (event.Take replica job) self.old }
        ensures ok { OnOk result (self.new ≡ and_entry caller (event.Take replica job) self.old) }
        ensures err { OnErr result (self.new ≡ self.old) }
    {
        let Core { ledger, .. } = self;
        ledger.take(alloc, caller, replica, job)?;
        Ok(())
    }

    // A replica replies, and whose session is given the answer is told it.
    pub fn enter_give(&mut self, caller: u64, replica: u32, reply: JobReply)
        requires quiet { IsQuiet self.old }
        requires allowed { IsAllowed caller (event.Give replica reply) self.old }
        ensures { self.new ≡ and_entry caller (event.Give replica reply) self.old }
    {
        let Core { ledger, seats, .. } = self;
        // a run that is out is one of a transaction that has begun
        ledger.begun();
        let place = ledger.view().replies().len();
        let to = ledger.give(caller, replica, reply);
        tell_if(seats, session_given(ledger, to), Seat::Answered(place));
    }

    // A replica is restarted.
    pub fn enter_restarted(&mut self, caller: u64, replica: u32, count: u64)
        requires quiet { IsQuiet self.old }
        requires allowed { IsAllowed caller (event.Restarted replica count) self.old }
        ensures { self.new ≡ and_entry caller (event.Restarted replica count) self.old }
    {
        let Core { ledger, .. } = self;
        ledger.restarted(caller, replica, count);
    }

    // Somebody suspects the primary.
    pub fn enter_suspect(&mut self, caller: u64) -> Result<(), AllocError>
        requires quiet { IsQuiet self.old }
        ensures ok { OnOk result (self.new ≡ and_entry caller event.Suspect self.old) }
        ensures err { OnErr result (self.new ≡ self.old) }
    {
        let Core {
            ledger,
            suspects,
            ..
        } = self;
        ledger.suspect(caller)?;
        *suspects = one_more(*suspects, ledger.len() as u64);
        Ok(())
    }
}

// The session of a transaction, if an answer is given to one.
fn session_given(ledger: &Ledger, to: Option<TxnId>) -> Option<u32>
    ensures { result ≡ option_and_then (λ t. history.session_of t (history_in ledger.now)) to }
{
    match to {
        Some(txn) => ledger.session(txn),
        None => None,
    }
}

// One suspicion more, of fewer than there are entries.
fn one_more(suspects: u64, entries: u64) -> u64
    requires { suspects < entries }
    ensures { result ≡ suspects + 1 }
{
    suspects + 1
}
