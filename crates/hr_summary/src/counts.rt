//! How often a history tells something.
ghost use Rattle.std.specs.Prelude.{◌≡◌, ◌≤◌};
ghost use Rattle.std.specs.Option.{option_map};
ghost use Rattle.hr_entries.specs.Entries.{entry_in, event_in};
ghost use Rattle.hr_summary.specs.Summary as summary;

use hr_entries::{Entries, EntryRef, EventRef};

/// How often a transaction was refused, and how often one gave way at a replica.
#[derive(Drop)]
pub struct Counts {
    pub refused: usize,
    pub preempted: usize,
}

/// Counts over a whole history.
pub fn counted(history: &Entries<'_>) -> Counts
    ensures refused { result.refused ≡ summary.refused history.now }
    ensures preempted { result.preempted ≡ summary.preempted history.now }
{
    let mut refused = 0;
    let mut preempted = 0;
    'entries: for place in 0..history.len() {
        let entry = history.get(place);
        refused += refuses_in(&entry);
        preempted += preempts_in(&entry);
    }
    Counts { refused, preempted }
}

// How many refusals an entry tells, none or one.
fn refuses_in(entry: &Option<EntryRef<'_>>) -> usize
    ensures value { result ≡ summary.told_in summary.is_refuse (option_map entry_in entry.now) }
    ensures few { result ≤ 1 }
{
    match entry {
        Some(entry) if is_refuse(&entry.event) => 1,
        _ => 0,
    }
}

// How many preemptions an entry tells, none or one.
fn preempts_in(entry: &Option<EntryRef<'_>>) -> usize
    ensures value { result ≡ summary.told_in summary.is_preempt (option_map entry_in entry.now) }
    ensures few { result ≤ 1 }
{
    match entry {
        Some(entry) if is_preempt(&entry.event) => 1,
        _ => 0,
    }
}

fn is_refuse(event: &EventRef<'_>) -> bool
    ensures { result ≡ summary.is_refuse (event_in event.now) }
{
    matches!(event, EventRef::Refuse { .. })
}

fn is_preempt(event: &EventRef<'_>) -> bool
    ensures { result ≡ summary.is_preempt (event_in event.now) }
{
    matches!(event, EventRef::Preempt { .. })
}
