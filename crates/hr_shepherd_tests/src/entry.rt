//! Entries of a history.

use hr_entries::{EntryRef, EventRef, ReplyRef};
use hr_rel::Stmt;
use hr_shepherd::Shepherd;
use std::io;

/// The entries from this place on.
pub fn print_entries<R: Print>(rt: &R, shepherd: &Shepherd, from: usize) -> io::Result<()> {
    let entries = shepherd.history();
    'entries: for place in from..entries.len() {
        if let Some(entry) = entries.get(place) {
            print_entry(rt, place, entry)?;
        }
    }
    Ok(())
}

fn print_entry<R: Print>(rt: &R, place: usize, entry: EntryRef<'_>) -> io::Result<()> {
    print!(rt; "  {place} by {}: ", entry.caller)?;
    print_event(rt, entry.event)?;
    println!(rt; "")
}

fn print_event<R: Print>(rt: &R, event: EventRef<'_>) -> io::Result<()> {
    match event {
        EventRef::Begin { session, txn } => print!(rt; "Begin({session}, {txn})"),
        EventRef::Submit { txn, index, stmt } => {
            print!(rt; "Submit({txn}, {index})")?;
            print_table(rt, stmt)
        }
        EventRef::AskCommit { txn } => print!(rt; "AskCommit({txn})"),
        EventRef::AskRollback { txn } => print!(rt; "AskRollback({txn})"),
        EventRef::Take { replica, job } => print!(rt; "Take({replica}, {job:?})"),
        EventRef::Give { replica, reply } => print_give(rt, replica, reply),
        EventRef::Restarted { replica, count } => print!(rt; "Restarted({replica}, {count})"),
        EventRef::Suspect => print!(rt; "Suspect"),
        EventRef::Decide { txn } => print!(rt; "Decide({txn})"),
        EventRef::Refuse { txn, cause } => print!(rt; "Refuse({txn}, {cause:?})"),
        EventRef::Convict { replica, evidence } => print!(rt; "Convict({replica}, {evidence:?})"),
        EventRef::NewPrimary { replica } => print!(rt; "NewPrimary({replica})"),
        EventRef::Preempt { replica, txn } => print!(rt; "Preempt({replica}, {txn})"),
    }
}

fn print_give<R: Print>(rt: &R, replica: u32, reply: ReplyRef<'_>) -> io::Result<()> {
    match reply {
        ReplyRef::Ran(told) => print!(rt; "Give({replica}, {told:?})"),
        ReplyRef::Ended(told) => print!(rt; "Give({replica}, {told:?})"),
        ReplyRef::StillLost => print!(rt; "Give({replica}, StillLost)"),
    }
}

/// A statement, by its table.
pub fn print_table<R: Print>(rt: &R, stmt: &Stmt) -> io::Result<()> {
    match stmt {
        Stmt::Delete(delete) => print!(rt; ", table {}", delete.table),
        _ => print!(rt; ", another statement"),
    }
}
