//! The callers' calls. Each adds one turn, or is refused for want of memory and changes nothing.
ghost use Rattle.std.specs.Prelude.{◌≡◌, ◌+◌, length, IfOk, OnOk, OnErr};
ghost use Rattle.hr_history.specs.declared.entry.Event.TheVariants as event;
ghost use Rattle.hr_history.specs.Transactions as history;
ghost use Rattle.hr_ledger.specs.Chronicle.{history_in, IsQuiet, IsAllowed};
ghost use Rattle.hr_core.specs.Turns.{HasTurn};

use crate::whole::Core;
use hr_engine::TxnId;
use hr_history::{Job, JobReply};
use hr_rel::Stmt;
use std::alloc::{AllocError, Global};

impl Core {
    /// A session begins a transaction. Gives its number.
    pub fn begin(&mut self, alloc: Global, caller: u64, session: u32) -> Result<TxnId, AllocError>
        requires quiet { IsQuiet self.old }
        requires allowed { IsAllowed caller (event.Begin session (length (history.begun (history_in self.old)) + 1)) self.old }
        ensures txn { IfOk result (λ txn. txn ≡ length (history.begun (history_in self.old)) + 1) }
        ensures ok { OnOk result (HasTurn caller (event.Begin session (length (history.begun (history_in self.old)) + 1)) self.old self.new) }
        ensures err { OnErr result (self.new ≡ self.old) }
    {
        let txn = self.enter_begin(alloc, caller, session)?;
        self.follow_all(caller);
        Ok(txn)
    }

    /// A session submits the next statement of a transaction. Gives its index, from 1.
    pub fn submit(&mut self, caller: u64, txn: TxnId, stmt: Stmt) -> Result<u32, AllocError>
        requires quiet { IsQuiet self.old }
        requires allowed { IsAllowed caller (event.Submit txn (length (history.submits txn (history_in self.old)) + 1) stmt) self.old }
        ensures index { IfOk result (λ index. index ≡ length (history.submits txn (history_in self.old)) + 1) }
        ensures ok { OnOk result (HasTurn caller (event.Submit txn (length (history.submits txn (history_in self.old)) + 1) stmt) self.old self.new) }
        ensures err { OnErr result (self.new ≡ self.old) }
    {
        let index = self.enter_submit(caller, txn, stmt)?;
        self.follow_all(caller);
        Ok(index)
    }

    /// A session asks for its transaction to be committed.
    pub fn ask_commit(&mut self, caller: u64, txn: TxnId) -> Result<(), AllocError>
        requires quiet { IsQuiet self.old }
        requires allowed { IsAllowed caller (event.AskCommit txn) self.old }
        ensures ok { OnOk result (HasTurn caller (event.AskCommit txn) self.old self.new) }
        ensures err { OnErr result (self.new ≡ self.old) }
    {
        self.enter_ask_commit(caller, txn)?;
        self.follow_all(caller);
        Ok(())
    }

    /// A session has its transaction rolled back. It takes no memory.
    pub fn ask_rollback(&mut self, caller: u64, txn: TxnId)
        requires quiet { IsQuiet self.old }
        requires allowed { IsAllowed caller (event.AskRollback txn) self.old }
        ensures { HasTurn caller (event.AskRollback txn) self.old self.new }
    {
        self.enter_ask_rollback(caller, txn);
        self.follow_all(caller);
    }

    /// A replica is given its job.
    pub fn take(
        &mut self,
        alloc: Global,
        caller: u64,
        replica: u32,
        job: Job,
    ) -> Result<(), AllocError>
        requires quiet { IsQuiet self.old }
        requires allowed { IsAllowed caller (event.Take replica job) self.old }
        ensures ok { OnOk result (HasTurn caller (event.Take replica job) self.old self.new) }
        ensures err { OnErr result (self.new ≡ self.old) }
    {
        self.enter_take(alloc, caller, replica, job)?;
        self.follow_all(caller);
        Ok(())
    }

    /// A replica replies to its job. It takes no memory.
    pub fn give(&mut self, caller: u64, replica: u32, reply: JobReply)
        requires quiet { IsQuiet self.old }
        requires allowed { IsAllowed caller (event.Give replica reply) self.old }
        ensures { HasTurn caller (event.Give replica reply) self.old self.new }
    {
        self.enter_give(caller, replica, reply);
        self.follow_all(caller);
    }

    /// A replica is restarted, and tells how many commits it has made. It takes no memory.
    pub fn restarted(&mut self, caller: u64, replica: u32, count: u64)
        requires quiet { IsQuiet self.old }
        requires allowed { IsAllowed caller (event.Restarted replica count) self.old }
        ensures { HasTurn caller (event.Restarted replica count) self.old self.new }
    {
        self.enter_restarted(caller, replica, count);
        self.follow_all(caller);
    }

    /// Somebody suspects the primary.
    pub fn suspect(&mut self, caller: u64) -> Result<(), AllocError>
        requires quiet { IsQuiet self.old }
        ensures ok { OnOk result (HasTurn caller event.Suspect self.old self.new) }
        ensures err { OnErr result (self.new ≡ self.old) }
    {
        self.enter_suspect(caller)?;
        self.follow_all(caller);
        Ok(())
    }
}
