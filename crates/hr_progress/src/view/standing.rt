//! For whom transactions wait, as far as it stands. A Blocked or Deadlock reply tells it. Of those that it named, and that
//! run without a break since, each is waited for; only in the reply's own turn does it stand as it was told.
ghost use Rattle.std.specs.Prelude.{◌≡◌, ◌+◌, ◌<◌, ◌&&◌, ◌==◌, ℕ, IsTrue, length, map, option_and_then, option_copied};
ghost use Rattle.hr_base.specs.Lists.{has, last_of};
ghost use Rattle.hr_engine.specs.Waits.{if_all};
ghost use Rattle.hr_history.specs.View.{is_fresh};
ghost use Rattle.hr_history.specs.Processed.{wait_in, standing_in, cycle_in};
ghost use Rattle.hr_history.specs.Jobs as history;
ghost use Rattle.hr_progress.specs.Plain.{plain_progress, plain_replica_in};
ghost use Rattle.hr_progress.specs.Seen as seen;

use crate::progress::{Progress, all_run_since, any_runs_since, last_at, runs_since};
use crate::view::View;
use crate::waits::{cycle_at, is_among, named_at};
use hr_engine::{RunReply, TxnId};
use hr_history::Fresh;

impl View {
    /// The last reply to a run.
    pub fn last_reply(&self) -> Option<&RunReply>
        ensures { option_copied result ≡ last_of self.now.replies }
    {
        self.replies.last()
    }

    /// Those whom the last reply of a replica to a transaction named, as it was told. Whom it waits for is among them.
    pub fn told(&self, replica: u32, txn: TxnId) -> &[TxnId]
        ensures { (u : ℕ) → IsTrue (has (wait_in self.now replica txn) u) → IsTrue (has result.now u) }
    {
        match last_at(&self.replicas, replica, txn) {
            Some(place) => named_at(&self.replies, place),
            None => &[],
        }
    }

    /// Whether a transaction waits for another at a replica.
    pub fn still_waits(&self, replica: u32, txn: TxnId, other: TxnId) -> bool
        ensures { result ≡ has (wait_in self.now replica txn) other }
    {
        match last_at(&self.replicas, replica, txn) {
            Some(place) => {
                is_among(named_at(&self.replies, place), other)
                    && (is_newest(self.fresh, replica, txn, place, &self.replies)
                        || runs_since(&self.replicas, replica, place, other))
            }
            None => false,
        }
    }

    /// The cycle of waits that the last reply of a replica to a transaction told, if it stands: all of it run there.
    pub fn standing(&self, replica: u32, txn: TxnId) -> Option<&[TxnId]>
        ensures { option_copied result ≡ standing_in self.now replica txn }
    {
        match last_at(&self.replicas, replica, txn) {
            Some(place) => cycle_since(&self.replies, &self.replicas, replica, place),
            None => None,
        }
    }

    /// Whether nothing is known at a replica that a transaction waits for: nobody whom it waits for runs there, and no
    /// cycle of waits stands.
    pub fn may_go_on(&self, replica: u32, txn: TxnId) -> bool
        ensures { result ≡ history.may_go_on self.now replica txn }
    {
        match last_at(&self.replicas, replica, txn) {
            Some(place) => {
                !any_runs_since(
                    &self.replicas,
                    replica,
                    place,
                    named_at(&self.replies, place),
                ) && cycle_since(&self.replies, &self.replicas, replica, place).is_none()
            }
            None => true,
        }
    }
}

// Whether the reply at this place, to a transaction at a replica, is this turn's.
fn is_newest(
    fresh: Option<Fresh>,
    replica: u32,
    txn: TxnId,
    place: usize,
    replies: &[RunReply],
) -> bool
    requires { place < length replies.now }
    ensures { result ≡ is_fresh fresh replica txn && (place + 1 == length replies.now) }
{
    match fresh {
        Some(fresh) => {
            fresh.replica == replica && fresh.txn == txn && place + 1 == replies.len()
        }
        None => false,
    }
}

// The cycle of waits that the reply at a place told, if all of it run at a replica since.
fn cycle_since<'a>(
    replies: &'a [RunReply],
    replicas: &[Progress],
    replica: u32,
    place: usize,
) -> Option<&'a [TxnId]>
    ensures { option_copied result ≡ option_and_then (if_all (seen.runs_since (plain_replica_in (map plain_progress replicas.now) replica).attempts place)) (cycle_in (seen.waits_at replies.now place)) }
{
    match cycle_at(replies, place) {
        Some(cycle) if all_run_since(replicas, replica, place, cycle) => Some(cycle),
        _ => None,
    }
}
