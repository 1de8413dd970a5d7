//! What a reply tells of waits, where it stands among the replies.
ghost use Rattle.std.specs.Prelude.{◌≡◌, ◌&&◌, option_map, option_copied};
ghost use Rattle.std.specs.List.{list_any, list_all};
ghost use Rattle.hr_base.specs.Lists.{has};
ghost use Rattle.hr_history.specs.Processed as history;
ghost use Rattle.hr_progress.specs.Seen.{waits_at};

use hr_engine::{RunReply, TxnId};

/// Those whom the reply at a place names, if it is Blocked.
pub fn named_at(replies: &[RunReply], place: usize) -> &[TxnId]
    ensures { result.now ≡ history.named_in (waits_at replies.now place) }
{
    match replies.get(place) {
        Some(RunReply::Blocked(named)) => named.as_slice(),
        _ => &[],
    }
}

/// The cycle of waits that the reply at a place tells, if it is Deadlock.
pub fn cycle_at(replies: &[RunReply], place: usize) -> Option<&[TxnId]>
    ensures { option_copied result ≡ history.cycle_in (waits_at replies.now place) }
{
    match replies.get(place) {
        Some(RunReply::Deadlock(cycle)) => Some(cycle.as_slice()),
        _ => None,
    }
}

/// Whether a transaction is among these.
pub fn is_among(txns: &[TxnId], txn: TxnId) -> bool
    ensures { result ≡ has txns.now txn }
{
    'txns: for other in txns {
        if *other == txn {
            return true;
        }
    }
    false
}
