//! Where replies and answers stand.
ghost use Rattle.std.specs.Prelude.{◌≡◌, Some, slice_get, unwrap_or};
ghost use Rattle.std.specs.Option.{option_map};
ghost use Rattle.hr_rel.specs.declared.answer.Answer.{Answer};
ghost use Rattle.hr_base.specs.Lists.{numbered};
ghost use Rattle.hr_engine.specs.declared.reply.RunReply.TheVariants as run;
ghost use Rattle.hr_history.specs.Processed.{attempt_in, given_in};

use crate::attempt::told_place;
use crate::progress::answers_at;
use crate::txn::{given_of, given_place};
use crate::view::View;
use hr_engine::{RunReply, TxnId};

impl View {
    /// The replies to all runs, in order.
    pub fn replies(&self) -> &[RunReply]
        ensures { result.now ≡ self.now.replies }
    {
        &self.replies
    }

    /// The place in the history, from 0, of the Give by which a replica told the answer with this number, from 1, of a
    /// transaction's attempt there; 0 where it has none.
    pub fn answer_place(&self, replica: u32, txn: TxnId, index: u32) -> u64
        ensures { result ≡ unwrap_or (numbered (attempt_in self.now replica txn).places index) 0 }
    {
        told_place(answers_at(&self.replicas, replica, txn), index)
    }

    /// The place among the replies, from 0, of the answer that was given to a transaction's statement with this index, from
    /// 1, if it was.
    pub fn given_place(&self, txn: TxnId, index: u32) -> Option<usize>
        ensures { option_map (slice_get self.now.replies) result ≡ option_map (λ (a : Answer). Some (run.Done a)) (numbered (given_in self.now txn) index) }
    {
        given_place(given_of(&self.txns, txn), index)
    }
}
