//! Entries as they are lent.
ghost use Rattle.std.specs.Prelude.{◌≡◌, ◌↔◌, [], IsTrue, length, slice_get};
ghost use Rattle.std.specs.Option.{option_map};
ghost use Rattle.hr_entries.specs.Entries.{entries_of, entry_of, event_of, is_within, are_within, event_in, entry_in};

use crate::stored::{Stored, StoredEvent};
use hr_engine::{EndReply, RunReply, TxnId};
use hr_history::{CauseAt, Evidence, Job};
use hr_rel::Stmt;
use std::marker::Model;

/// One entry of the history, lent.
#[derive(Clone, Copy)]
pub struct EntryRef<'a> {
    /// 0 is the root, replica `r` is `r + 1`, and session `s` is `2f + 1 + s`.
    pub caller: u64,
    pub event: EventRef<'a>,
}

/// What happened. The first eight are calls; the others follow from a call, in the same turn.
#[derive(Clone, Copy)]
pub enum EventRef<'a> {
    Begin {
        session: u32,
        txn: TxnId,
    },
    Submit {
        txn: TxnId,
        index: u32,
        stmt: &'a Stmt,
    },
    AskCommit {
        txn: TxnId,
    },
    AskRollback {
        txn: TxnId,
    },
    Take {
        replica: u32,
        job: Job,
    },
    Give {
        replica: u32,
        reply: ReplyRef<'a>,
    },
    Restarted {
        replica: u32,
        count: u64,
    },
    Suspect,
    Decide {
        txn: TxnId,
    },
    Refuse {
        txn: TxnId,
        cause: CauseAt,
    },
    Convict {
        replica: u32,
        evidence: Evidence,
    },
    NewPrimary {
        replica: u32,
    },
    Preempt {
        replica: u32,
        txn: TxnId,
    },
}

/// What a replica replied to its job.
#[derive(Clone, Copy)]
pub enum ReplyRef<'a> {
    Ran(&'a RunReply),
    Ended(EndReply),
    StillLost,
}

/// The history, lent as a list of entries.
#[derive(Drop)]
pub struct Entries<'a> {
    stored: &'a [Stored],
    statements: &'a [Stmt],
    replies: &'a [RunReply],
}

impl<'a> Model for Entries<'a> {
    ghost use Rattle.std.specs.Prelude.{List, IsTrue};
    ghost use Rattle.hr_history.specs.declared.entry.Entry.{Entry};
    ghost use Rattle.hr_entries.specs.Entries.{entries_of, are_within};

    ghost Value = { List Entry };

    // the code of conditions and expressions, which hold themselves
    ghost use Rattle.std.specs.Coded.{codes};
    ghost use Rattle.hr_rel.specs.contracts.expr.Pred as pred;
    ghost use Rattle.hr_rel.specs.contracts.expr.Expr as expr;

    ghost coded = { Prim.hlevel (codes, pred.the_row.coded, expr.the_row.coded) };

    ghost view = { λ e. entries_of e.statements.now e.replies.now e.stored.now };

    ghost invariant = { λ e. IsTrue (are_within e.statements.now e.replies.now e.stored.now) };
}

impl<'a> Entries<'a> {
    ghost use Rattle.hr_entries.specs.Rest.{entries_left};

    /// The entries that these stand for.
    pub fn new(stored: &'a [Stored], statements: &'a [Stmt], replies: &'a [RunReply]) -> Entries<'a>
        requires { IsTrue (are_within statements.now replies.now stored.now) }
        ensures { result ≡ entries_of statements.now replies.now stored.now }
    {
        Entries {
            stored,
            statements,
            replies,
        }
    }

    /// How many entries there are.
    pub fn len(&self) -> usize
        ensures { result ≡ length self.now }
    {
        self.stored.len()
    }

    /// Whether nothing has happened yet.
    pub fn is_empty(&self) -> bool
        ensures { IsTrue result ↔ (self.now ≡ []) }
    {
        self.stored.is_empty()
    }

    /// All entries, from the first.
    pub fn iter(&self) -> EntryIter<'a>
        ensures { entries_left result ≡ self.now }
    {
        EntryIter {
            stored: self.stored,
            statements: self.statements,
            replies: self.replies,
        }
    }

    /// The entry at a place, from 0, if there is one.
    pub fn get(&self, place: usize) -> Option<EntryRef<'a>>
        ensures { option_map entry_in result ≡ slice_get self.now place }
    {
        let stored = self.stored.get(place)?;
        Some(entry(self.statements, self.replies, *stored))
    }
}

/// The entries of a history that are still to come, the earliest first.
#[derive(Drop)]
pub struct EntryIter<'a> {
    stored: &'a [Stored],
    statements: &'a [Stmt],
    replies: &'a [RunReply],
    ghost within: { IsTrue (are_within statements.now replies.now stored.now) },
}

impl<'a> Iterator for EntryIter<'a> {
    ghost use Rattle.std.specs.Iterator.{item_count};
    ghost use Rattle.hr_entries.specs.Rest.{entries_left, GivesEntry};

    type Item = EntryRef<'a>;

    ghost next_gives = { GivesEntry };

    ghost remaining = { item_count entries_left };

    fn next(&mut self) -> Option<EntryRef<'a>> {
        match self.stored {
            [first, rest @ ..] => {
                self.stored = rest;
                Some(entry(self.statements, self.replies, *first))
            }
            [] => None,
        }
    }
}

// The entry that a stored one stands for.
fn entry<'a>(statements: &'a [Stmt], replies: &'a [RunReply], stored: Stored) -> EntryRef<'a>
    requires { IsTrue (is_within (length statements.now) (length replies.now) stored.event) }
    ensures { entry_in result ≡ entry_of statements.now replies.now stored }
{
    EntryRef {
        caller: stored.caller,
        event: event(statements, replies, stored.event),
    }
}

// The event that a stored one stands for.
fn event<'a>(statements: &'a [Stmt], replies: &'a [RunReply], stored: StoredEvent) -> EventRef<'a>
    requires { IsTrue (is_within (length statements.now) (length replies.now) stored) }
    ensures { event_in result ≡ event_of statements.now replies.now stored }
{
    match stored {
        StoredEvent::Begin { session, txn } => EventRef::Begin { session, txn },
        StoredEvent::Submit { txn, index, at } => EventRef::Submit {
            txn,
            index,
            stmt: &statements[at],
        },
        StoredEvent::AskCommit { txn } => EventRef::AskCommit { txn },
        StoredEvent::AskRollback { txn } => EventRef::AskRollback { txn },
        StoredEvent::Take { replica, job } => EventRef::Take { replica, job },
        StoredEvent::Ran { replica, at } => EventRef::Give {
            replica,
            reply: ReplyRef::Ran(&replies[at]),
        },
        StoredEvent::Ended { replica, reply } => EventRef::Give {
            replica,
            reply: ReplyRef::Ended(reply),
        },
        StoredEvent::StillLost { replica } => EventRef::Give {
            replica,
            reply: ReplyRef::StillLost,
        },
        StoredEvent::Restarted { replica, count } => EventRef::Restarted { replica, count },
        StoredEvent::Suspect => EventRef::Suspect,
        StoredEvent::Decide { txn } => EventRef::Decide { txn },
        StoredEvent::Refuse { txn, cause } => EventRef::Refuse { txn, cause },
        StoredEvent::Convict { replica, evidence } => EventRef::Convict { replica, evidence },
        StoredEvent::NewPrimary { replica } => EventRef::NewPrimary { replica },
        StoredEvent::Preempt { replica, txn } => EventRef::Preempt { replica, txn },
    }
}
