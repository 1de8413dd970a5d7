//! The transactions that have an entry at a replica, by their places there.
ghost use Rattle.std.specs.Prelude.{◌≡◌, ◌≤◌, length, nat_eq, position, slice_get};
ghost use Rattle.hr_base.specs.declared.limits.TheConstants.{MAX_SUBMITS};
ghost use Rattle.hr_moves.specs.Kept.{entries_in};

use crate::progress::{entry_at, entry_count, entry_place};
use crate::view::View;
use hr_engine::TxnId;

impl View {
    /// How many transactions have an entry at a replica.
    pub fn entries(&self, replica: u32) -> usize
        ensures value { result ≡ length (entries_in self.now replica) }
        ensures few { result ≤ MAX_SUBMITS }
    {
        entry_count(&self.replicas, replica)
    }

    /// The transaction whose entry at a replica has this place, from 0.
    pub fn entry(&self, replica: u32, place: usize) -> Option<TxnId>
        ensures { result ≡ slice_get (entries_in self.now replica) place }
    {
        entry_at(&self.replicas, replica, place)
    }

    /// The place, from 0, of a transaction's entry at a replica, if it has one.
    pub fn entry_place(&self, replica: u32, txn: TxnId) -> Option<usize>
        ensures { result ≡ position (nat_eq txn) (entries_in self.now replica) }
    {
        entry_place(&self.replicas, replica, txn)
    }
}
