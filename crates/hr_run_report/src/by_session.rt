//! The tries of each session, as the history tells them.
ghost use Rattle.std.specs.Prelude.{◌≡◌, map, option_copied, IfOk, OnOk};
ghost use Rattle.std.specs.Option.{option_map};
ghost use Rattle.hr_base.specs.Lists.{last_of, one_to};
ghost use Rattle.hr_entries.specs.Entries.{entry_in, event_in};
ghost use Rattle.hr_history.specs.History.{history_of};
ghost use Rattle.hr_ledger.specs.Chronicle.{history_in};
ghost use Rattle.hr_schedule.specs.Tries.{tries_of};
ghost use Rattle.hr_run_report.specs.ByEntries as by;

use hr_engine::TxnId;
use hr_entries::{Entries, EntryRef, EventRef};
use hr_rel::Seq;
use hr_schedule::Try;
use hr_shepherd::Shepherd;
use std::alloc::{AllocError, Global};

/// The tries of each session in the order of its Begins, where a refused block is tried again as often as `retries` says.
pub fn tries(alloc: Global, shepherd: &Shepherd, retries: u32) -> Result<Seq<Seq<Try>>, AllocError>
    ensures { IfOk result (λ all. all ≡ map (λ s. tries_of retries s (history_in shepherd.now)) (one_to shepherd.now.sessions)) }
{
    let history = shepherd.history();
    let mut all = Seq::new(alloc);
    'sessions: for before in 0..shepherd.sessions() {
        all.push(own_tries(alloc, &history, retries, before + 1)?)?;
    }
    Ok(all)
}

fn own_tries(
    alloc: Global,
    history: &Entries<'_>,
    retries: u32,
    session: u32,
) -> Result<Seq<Try>, AllocError>
    ensures { IfOk result (λ own. own ≡ tries_of retries session (history_of history.now)) }
{
    let mut own = Seq::new(alloc);
    let mut refused = false;
    'entries: for place in 0..history.len() {
        let entry = history.get(place);
        push_begun(&mut own, refused, &entry, retries, session)?;
        refused = is_refused_by(&own, &entry, refused);
    }
    Ok(own)
}

// Adds the try that an entry begins, if it begins one of the session.
fn push_begun(
    own: &mut Seq<Try>,
    refused: bool,
    entry: &Option<EntryRef<'_>>,
    retries: u32,
    session: u32,
) -> Result<(), AllocError>
    ensures { OnOk result (own.new ≡ by.tries_by retries session (option_map entry_in entry.now) refused own.old) }
{
    match begun_by(entry, session) {
        Some(txn) => {
            let next = try_after(last(own), refused, retries, txn)?;
            own.push(next)
        }
        None => Ok(()),
    }
}

// The transaction that the session began by an entry, if it began one.
fn begun_by(entry: &Option<EntryRef<'_>>, session: u32) -> Option<TxnId>
    ensures { result ≡ by.begun_by session (option_map entry_in entry.now) }
{
    match entry {
        Some(
            EntryRef {
                caller: _,
                event: EventRef::Begin { session: own, txn },
            },
        ) if *own == session => Some(*txn),
        _ => None,
    }
}

// The try that a transaction begins behind the last one, which was refused or not.
fn try_after(last: Option<&Try>, refused: bool, retries: u32, txn: TxnId) -> Result<Try, AllocError>
    ensures { IfOk result (λ next. next ≡ by.try_behind retries (option_copied last.entry) refused txn) }
{
    match last {
        None => Ok(first(1, txn)),
        Some(last) if refused && last.number <= u64::from(retries) => Ok(Try {
            block: last.block,
            number: last.number.checked_add(1).ok_or(AllocError)?,
            txn,
        }),
        Some(last) => Ok(first(last.block.checked_add(1).ok_or(AllocError)?, txn)),
    }
}

fn last(own: &Seq<Try>) -> Option<&Try>
    ensures { option_copied result ≡ last_of own.now }
{
    own.as_slice().last()
}

// The first try of a block.
fn first(block: usize, txn: TxnId) -> Try
    ensures { result ≡ record { block = block; number = 1; txn = txn } }
{
    Try {
        block,
        number: 1,
        txn,
    }
}

// Whether a session's last try is refused, once an entry has come; `was` tells it of before.
fn is_refused_by(own: &Seq<Try>, entry: &Option<EntryRef<'_>>, was: bool) -> bool
    ensures { result ≡ by.refused_in own.now (option_map entry_in entry.now) was }
{
    match (last(own), entry) {
        (Some(last), Some(entry)) => refused_by(last.txn, &entry.event, was),
        _ => was,
    }
}

fn refused_by(txn: TxnId, event: &EventRef<'_>, was: bool) -> bool
    ensures { result ≡ by.refused_by txn (event_in event.now) was }
{
    match event {
        EventRef::Refuse { txn: refused, .. } => was || *refused == txn,
        EventRef::Begin { txn: other, .. }
        | EventRef::AskCommit { txn: other }
        | EventRef::AskRollback { txn: other }
        | EventRef::Decide { txn: other } => was && *other != txn,
        _ => was,
    }
}
