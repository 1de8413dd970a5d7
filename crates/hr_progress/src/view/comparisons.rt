//! How the answers of an attempt compare with the given ones, and with another's.
ghost use Rattle.std.specs.Prelude.{◌≡◌, length, slice_get};
ghost use Rattle.std.specs.Option.{option_map};
ghost use Rattle.hr_history.specs.Given.{Given};
ghost use Rattle.hr_history.specs.SameAnswers.{same_answers};
ghost use Rattle.hr_history.specs.Processed.{txn_in, given_in, answers_in};
ghost use Rattle.hr_history.specs.Votes.{difference_at};

use crate::answers::{first_difference, same_as_given, same_attempts};
use crate::progress::answers_at;
use crate::txn::{given_of, stamp_after};
use crate::view::View;
use hr_engine::TxnId;

impl View {
    /// How many answers were given to a transaction.
    pub fn given(&self, txn: TxnId) -> u32
        ensures { result ≡ length (txn_in self.now txn).given }
    {
        given_of(&self.txns, txn).len() as u32
    }

    /// The length of the log when the answer to a transaction's statement after so many was given, if it was.
    pub fn stamp_after(&self, txn: TxnId, answers: usize) -> Option<u64>
        ensures { result ≡ option_map (λ (g : Given). g.stamp) (slice_get (txn_in self.now txn).given answers) }
    {
        stamp_after(given_of(&self.txns, txn), answers)
    }

    /// Whether the answers of a transaction's attempt at a replica are the given ones.
    pub fn same_as_given(&self, replica: u32, txn: TxnId) -> bool
        ensures { result ≡ same_answers (answers_in self.now replica txn) (given_in self.now txn) }
    {
        let told = answers_at(&self.replicas, replica, txn);
        same_as_given(&self.replies, told, given_of(&self.txns, txn))
    }

    /// Whether another replica has the same answers in its attempt of a transaction as this one.
    pub fn same_there(&self, replica: u32, other: u32, txn: TxnId) -> bool
        ensures { result ≡ same_answers (answers_in self.now other txn) (answers_in self.now replica txn) }
    {
        let told = answers_at(&self.replicas, replica, txn);
        same_attempts(&self.replies, answers_at(&self.replicas, other, txn), told)
    }

    /// The number, from 1, of the first answer of a transaction's attempt at a replica that isn't the given one; past the
    /// end of either where none differs.
    pub fn difference(&self, replica: u32, txn: TxnId) -> u32
        ensures { result ≡ difference_at self.now replica txn }
    {
        let told = answers_at(&self.replicas, replica, txn);
        first_difference(&self.replies, told, given_of(&self.txns, txn))
    }
}
