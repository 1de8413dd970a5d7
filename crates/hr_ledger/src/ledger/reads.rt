//! What a kept history tells.
ghost use Rattle.std.specs.Prelude.{◌≡◌, Some, length, option_copied, slice_get};
ghost use Rattle.std.specs.Option.{option_map};
ghost use Rattle.hr_base.specs.Lists.{numbered};
ghost use Rattle.hr_history.specs.Transactions as history;
ghost use Rattle.hr_history.specs.Replies.{event_at};
ghost use Rattle.hr_history.specs.Turn.{replies_to_runs};
ghost use Rattle.hr_ledger.specs.Chronicle.{history_in, view_in, HasBegun};
ghost use Rattle.hr_ledger.specs.Told.{reply_told, place_told, ran_in};

use crate::ledger::Ledger;
use crate::script::{session_of, statement_place};
use hr_engine::TxnId;
use hr_entries::{Entries, Stored, StoredEvent};
use hr_progress::View;
use hr_rel::Stmt;

impl Ledger {
    /// The entries, from the first on.
    pub fn entries(&self) -> Entries<'_>
        ensures { result ≡ self.now.entries }
    {
        Entries::new(&self.stored, &self.statements, self.view.replies())
    }

    /// How many entries there are.
    pub fn len(&self) -> usize
        ensures { result ≡ length self.now.entries }
    {
        self.entries().len()
    }

    /// The view that the history has.
    pub fn view(&self) -> &View
        ensures { result.now ≡ view_in self.now }
    {
        &self.view
    }

    /// The history has begun rightly.
    pub fn begun(&self)
        ensures { HasBegun self.now }
    {
        let _sessions = self.sessions;
    }

    /// How many sessions there are.
    pub fn sessions(&self) -> u32
        ensures { result ≡ self.now.sessions }
    {
        self.sessions
    }

    /// How many transactions have begun.
    pub fn begun_count(&self) -> u64
        ensures { result ≡ length (history.begun (history_in self.now)) }
    {
        self.scripts.len() as u64
    }

    /// How many statements were submitted, of all transactions.
    pub fn submitted(&self) -> u64
        ensures { result ≡ history.submitted (history_in self.now) }
    {
        self.statements.len() as u64
    }

    /// The session of a transaction, if there is such a transaction.
    pub fn session(&self, txn: TxnId) -> Option<u32>
        ensures { result ≡ history.session_of txn (history_in self.now) }
    {
        session_of(&self.scripts, txn)
    }

    /// The statement with this index, from 1, of a transaction.
    pub fn statement(&self, txn: TxnId, index: u32) -> Option<&Stmt>
        ensures { option_copied result ≡ numbered (history.submits txn (history_in self.now)) index }
    {
        match statement_place(&self.scripts, txn, index) {
            Some(place) => statement_at(&self.statements, place),
            None => None,
        }
    }

    /// Where the reply to a run that the entry at a place tells stands among all replies to runs, if it tells one.
    pub fn reply_place(&self, place: u64) -> Option<usize>
        ensures { option_map (slice_get (replies_to_runs (history_in self.now))) result ≡ option_map Some (reply_told (event_at place (history_in self.now))) }
    {
        ran_at(&self.stored, place as usize)
    }
}

// The statement at a place.
fn statement_at(statements: &[Stmt], place: usize) -> Option<&Stmt>
    ensures { option_copied result ≡ slice_get statements.now place }
{
    match statements.get(place) {
        Some(statement) => Some(statement),
        None => None,
    }
}

// Where the reply to a run stands that the stored entry at a place tells.
fn ran_at(stored: &[Stored], place: usize) -> Option<usize>
    ensures { result ≡ ran_in (slice_get stored.now place) }
{
    match stored.get(place) {
        Some(entry) => ran(entry.event),
        None => None,
    }
}

fn ran(event: StoredEvent) -> Option<usize>
    ensures { result ≡ place_told event }
{
    match event {
        StoredEvent::Ran { at, .. } => Some(at),
        _ => None,
    }
}
