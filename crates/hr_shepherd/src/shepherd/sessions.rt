//! The calls of sessions. A refused one changes nothing.
ghost use Rattle.std.specs.Prelude.{◌≡◌, ◌≤◌, ◌+◌, length, is_some, IfOk, OnOk, OnErr, IsTrue};
ghost use Rattle.hr_history.specs.Faithful.{session_caller};
ghost use Rattle.hr_history.specs.Replies.{reply_to, ending_of};
ghost use Rattle.hr_history.specs.Transactions as transactions;
ghost use Rattle.hr_history.specs.declared.entry.Event.TheVariants as event;
ghost use Rattle.hr_moves.specs.Callers.{Grows};
ghost use Rattle.hr_ledger.specs.Chronicle.{history_in};
ghost use Rattle.hr_core.specs.Copies.{reply_in};
ghost use Rattle.hr_core.specs.Turns.{HasTurn};
ghost use Rattle.hr_shepherd.specs.Refused as told;
ghost use Rattle.hr_shepherd.specs.Refused.{IsRefusedFor};

use crate::gate::{refused, refused_begin, refused_submit};
use crate::refusal::Refusal;
use crate::shepherd::Shepherd;
use hr_engine::TxnId;
use hr_history::{Ending, Reply};
use hr_rel::Stmt;
use std::alloc::{AllocError, Global};

impl Shepherd {
    /// A session begins a transaction. Gives its number. Refused where the session has an open one, and else at most for want
    /// of memory.
    pub fn begin(&mut self, alloc: Global, caller: u64, session: u32) -> Result<TxnId, Refusal>
        requires first { 1 ≤ session }
        requires last { session ≤ self.old.sessions }
        requires caller { caller ≡ session_caller self.old.f session }
        ensures refused { IsRefusedFor (told.refused_begin self.old session) result }
        ensures txn { IfOk result (λ txn. txn ≡ length (transactions.begun (history_in self.old)) + 1) }
        ensures ok { OnOk result (HasTurn caller (event.Begin session (length (transactions.begun (history_in self.old)) + 1)) self.old self.new) }
        ensures err { OnErr result (self.new ≡ self.old) }
        ensures grows { Grows caller self.old.entries self.new.entries }
    {
        if let Some(refusal) = refused_begin(&self.core, session) {
            return Err(refusal);
        }
        let txn = self.core.begin(alloc, caller, session)?;
        Ok(txn)
    }

    /// A session submits the next statement of its open transaction. Gives the statement's index, from 1. Refused, in this
    /// order: where it is no such transaction, where the session waits for a reply, where no more statements may be
    /// submitted, and for want of memory.
    pub fn submit(&mut self, caller: u64, txn: TxnId, stmt: Stmt) -> Result<u32, Refusal>
        ensures refused { IsRefusedFor (told.refused_submit self.old caller txn) result }
        ensures index { IfOk result (λ index. index ≡ length (transactions.submits txn (history_in self.old)) + 1) }
        ensures ok { OnOk result (HasTurn caller (event.Submit txn (length (transactions.submits txn (history_in self.old)) + 1) stmt) self.old self.new) }
        ensures err { OnErr result (self.new ≡ self.old) }
        ensures grows { Grows caller self.old.entries self.new.entries }
    {
        if let Some(refusal) = refused_submit(&self.core, caller, txn) {
            return Err(refusal);
        }
        let index = self.core.submit(caller, txn, stmt)?;
        Ok(index)
    }

    /// A session asks for its open transaction to be committed. Refused, in this order: where it is no such transaction, where
    /// the session waits for a reply, and for want of memory.
    pub fn ask_commit(&mut self, caller: u64, txn: TxnId) -> Result<(), Refusal>
        ensures refused { IsRefusedFor (told.refused self.old caller txn) result }
        ensures ok { OnOk result (HasTurn caller (event.AskCommit txn) self.old self.new) }
        ensures err { OnErr result (self.new ≡ self.old) }
        ensures grows { Grows caller self.old.entries self.new.entries }
    {
        if let Some(refusal) = refused(&self.core, caller, txn) {
            return Err(refusal);
        }
        self.core.ask_commit(caller, txn)?;
        Ok(())
    }

    /// A session has its open transaction rolled back: it has ended then. Refused where it is no such transaction, and where
    /// the session waits for a reply.
    pub fn ask_rollback(&mut self, caller: u64, txn: TxnId) -> Result<(), Refusal>
        ensures refused { IsRefusedFor (told.refused self.old caller txn) result }
        ensures ok { OnOk result (HasTurn caller (event.AskRollback txn) self.old self.new) }
        ensures err { OnErr result (self.new ≡ self.old) }
        ensures grows { Grows caller self.old.entries self.new.entries }
    {
        if let Some(refusal) = refused(&self.core, caller, txn) {
            return Err(refusal);
        }
        self.core.ask_rollback(caller, txn);
        Ok(())
    }

    /// The reply to a session's last Submit or AskCommit, if there is one: the answer, the place of the commit, or why its
    /// transaction was refused. Wants memory only where there is a reply.
    pub fn collect(&self, alloc: Global, session: u32) -> Result<Option<Reply>, AllocError>
        requires first { 1 ≤ session }
        requires last { session ≤ self.now.sessions }
        ensures ok { IfOk result (λ reply. reply ≡ reply_in (reply_to session (history_in self.now))) }
        ensures err { OnErr result (IsTrue (is_some (reply_in (reply_to session (history_in self.now))))) }
    {
        self.core.collect(alloc, session)
    }

    /// How a transaction ended: none while it is open, and where there is no such transaction. Wants memory only where it has
    /// ended.
    pub fn ending(&self, alloc: Global, txn: TxnId) -> Result<Option<Ending>, AllocError>
        ensures ok { IfOk result (λ ending. ending ≡ ending_of txn (history_in self.now)) }
        ensures err { OnErr result (IsTrue (is_some (ending_of txn (history_in self.now)))) }
    {
        self.core.ending(alloc, txn)
    }

    /// The session of a transaction, if there is such a transaction.
    pub fn session(&self, txn: TxnId) -> Option<u32>
        ensures { result ≡ transactions.session_of txn (history_in self.now) }
    {
        self.core.ledger().session(txn)
    }
}
