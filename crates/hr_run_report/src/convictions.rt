//! Who was convicted, and how often a transaction was preempted at a replica.
ghost use Rattle.std.specs.Prelude.{◌≡◌, ◌≤◌, ◌++◌, OnOk, string_bytes};
ghost use Rattle.std.specs.Option.{option_map};
ghost use Rattle.hr_entries.specs.Entries.{event_in, entry_in};
ghost use Rattle.hr_run_report.specs.Convictions as convictions;

use hr_engine::TxnId;
use hr_entries::{Entries, EntryRef, EventRef};
use hr_history::Evidence;
use hr_shepherd::Shepherd;
use std::alloc::AllocError;

/// Writes the convictions in the order in which they came, each with its evidence.
pub fn push_convictions(out: &mut String, shepherd: &Shepherd) -> Result<(), AllocError>
    ensures { OnOk result (string_bytes out.new ≡ string_bytes out.old ++ convictions.convictions_text shepherd.now.entries) }
{
    let history = shepherd.history();
    'entries: for entry in history.iter() {
        push_conviction(out, &entry.event)?;
    }
    Ok(())
}

fn push_conviction(out: &mut String, event: &EventRef<'_>) -> Result<(), AllocError>
    ensures { OnOk result (string_bytes out.new ≡ string_bytes out.old ++ convictions.conviction_text (event_in event.now)) }
{
    match event {
        EventRef::Convict { replica, evidence } => {
            write!(out, "convicted {replica} ")?;
            push_evidence(out, *evidence)?;
            writeln!(out)
        }
        _ => Ok(()),
    }
}

fn push_evidence(out: &mut String, evidence: Evidence) -> Result<(), AllocError>
    ensures { OnOk result (string_bytes out.new ≡ string_bytes out.old ++ convictions.evidence_text evidence) }
{
    match evidence {
        Evidence::Contradicted { txn, index } => push_statement(out, "contradicted", txn, index),
        Evidence::Differs { txn, index } => push_statement(out, "differs", txn, index),
        Evidence::BadBlocked { txn } => push_txn(out, "blocked", txn),
        Evidence::BadDeadlock { txn } => push_txn(out, "deadlock", txn),
        Evidence::BadRestart { count } => write!(out, "restart {count}"),
    }
}

fn push_txn(out: &mut String, word: &str, txn: TxnId) -> Result<(), AllocError>
    ensures { OnOk result (string_bytes out.new ≡ string_bytes out.old ++ convictions.of_txn word.now txn) }
{
    out.push_str(word)?;
    write!(out, " txn {txn}")
}

fn push_statement(out: &mut String, word: &str, txn: TxnId, index: u32) -> Result<(), AllocError>
    ensures { OnOk result (string_bytes out.new ≡ string_bytes out.old ++ convictions.of_statement word.now txn index) }
{
    push_txn(out, word, txn)?;
    write!(out, " statement {index}")
}

/// How often a transaction was preempted at a replica.
pub fn preempted(shepherd: &Shepherd, replica: u32) -> usize
    ensures { result ≡ convictions.preempted replica shepherd.now.entries }
{
    preempted_in(&shepherd.history(), replica)
}

fn preempted_in(history: &Entries<'_>, replica: u32) -> usize
    ensures { result ≡ convictions.preempted replica history.now }
{
    let mut count = 0;
    'entries: for place in 0..history.len() {
        count += preempts_in(history.get(place), replica);
    }
    count
}

// How many preemptions an entry tells, none or one.
fn preempts_in(entry: Option<EntryRef<'_>>, replica: u32) -> usize
    ensures value { result ≡ convictions.preempts_in replica (option_map entry_in entry.entry) }
    ensures few { result ≤ 1 }
{
    match entry {
        Some(entry) if is_preempt_at(&entry.event, replica) => 1,
        _ => 0,
    }
}

fn is_preempt_at(event: &EventRef<'_>, replica: u32) -> bool
    ensures { result ≡ convictions.is_preempt_at replica (event_in event.now) }
{
    match event {
        EventRef::Preempt {
            replica: preempting,
            txn: _,
        } => *preempting == replica,
        _ => false,
    }
}
