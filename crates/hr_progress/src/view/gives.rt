//! What a reply changes. Its room was reserved when its job was taken: it takes no memory.
ghost use Rattle.std.specs.Prelude.{◌≡◌, ◌⊎◌, ◌&&◌, ◌==◌, ◌+◌, ℕ, true, false, Some, length, map, slice_get, IsTrue};
ghost use Rattle.hr_base.specs.Lists.{when};
ghost use Rattle.hr_engine.specs.declared.reply.RunReply.TheVariants as run;
ghost use Rattle.hr_history.specs.declared.entry.Event.TheVariants as event;
ghost use Rattle.hr_history.specs.declared.job.Job.TheVariants as job;
ghost use Rattle.hr_history.specs.declared.job.JobReply.TheVariants as answers;
ghost use Rattle.hr_history.specs.Faithful.{fits_job};
ghost use Rattle.hr_history.specs.SameAnswers.{is_canonical};
ghost use Rattle.hr_history.specs.Processed.{replica_in};
ghost use Rattle.hr_history.specs.Primary.{is_some_of};
ghost use Rattle.hr_history.specs.Step.{view_step};
ghost use Rattle.hr_moves.specs.Sane.{IsReplica};
ghost use Rattle.hr_moves.specs.Moves as moves;
ghost use Rattle.hr_history.specs.Transactions as history;
ghost use Rattle.hr_progress.specs.GivenTo.{given_by};
ghost use Rattle.hr_progress.specs.Plain.{plain_txn, plain_txn_in};
ghost use Rattle.hr_progress.specs.Seen.{waits_in};
ghost use Rattle.hr_progress.specs.Kept.{is_run_of, is_wait, loses};

use crate::answers::{done_at, same_answer};
use crate::attempt::Told;
use crate::progress::{answer_at, commit_at, free_at, lose_at, roll_back_at, wait_at};
use crate::txn::{Given, TxnState, give_if, given_of, is_open, phase_of};
use crate::view::View;
use crate::view::follows::other_than;
use hr_engine::{EndReply, RunReply, TxnId};
use hr_history::{Fresh, Job, JobReply};
use hr_rel::Answer;

impl View {
    /// A replica replies to its job, where so many entries stood before. Gives the transaction whose session is given the
    /// answer, if one is.
    pub fn give(&mut self, replica: u32, reply: JobReply, place: u64) -> Option<TxnId>
        requires known { IsReplica self.old replica }
        requires fits { IsTrue (fits_job reply (replica_in self.old replica).out) }
        ensures step { (asks : ℕ) → self.new ≡ view_step self.old place asks (event.Give replica reply) }
        ensures given { result ≡ given_by self.old replica (replica_in self.old replica).out reply }
    {
        // each view makes sense
        self.sane();
        match reply {
            JobReply::Ran(reply) => {
                let Some(Job::Run(txn, index)) = self.out(replica) else {
                    unreachable!()
                };
                self.ran(replica, txn, index, reply, place)
            }
            JobReply::Ended(reply) => {
                self.ended(replica, reply);
                None
            }
            JobReply::StillLost => {
                self.still_lost(replica);
                None
            }
        }
    }
}

impl View {
    // A replica replies to a run.
    fn ran(
        &mut self,
        replica: u32,
        txn: TxnId,
        index: u32,
        reply: RunReply,
        place: u64,
    ) -> Option<TxnId>
        requires known { IsReplica self.old replica }
        requires out { (replica_in self.old replica).out ≡ Some (job.Run txn index) }
        requires fits { IsTrue (fits_job (answers.Ran reply) (Some (job.Run txn index))) }
        ensures step { self.new ≡ moves.after_run self.old place replica txn index reply }
        ensures given { result ≡ given_by self.old replica (Some (job.Run txn index)) (answers.Ran reply) }
    {
        match reply {
            RunReply::Done(answer) => return self.done(replica, txn, index, answer, place),
            RunReply::Lost => self.lost_at_run(replica, txn),
            RunReply::NoMemory => self.no_memory(replica, txn),
            waits => self.told_waits(replica, txn, waits),
        }
        None
    }

    // It answers. Its session is given the answer where it is the primary's to the first statement without one.
    fn done(
        &mut self,
        replica: u32,
        txn: TxnId,
        index: u32,
        answer: Answer,
        place: u64,
    ) -> Option<TxnId>
        requires known { IsReplica self.old replica }
        requires out { (replica_in self.old replica).out ≡ Some (job.Run txn index) }
        requires canonical { IsTrue (is_canonical answer) }
        ensures step { self.new ≡ moves.after_done self.old place replica txn index answer }
        ensures given { result ≡ when (moves.is_given self.old replica txn index) txn }
    {
        let View {
            log,
            txns,
            replicas,
            primary,
            replies,
            fresh,
            ..
        } = self;
        let newest = replies.len();
        let is_given = is_given(*primary, replica, txns, txn, index);
        let reply = place_of(replies, given_of(txns, txn), index, &answer);
        replies.push_reserved(RunReply::Done(answer));
        *fresh = Some(Fresh { replica, txn });
        let told = Told { reply, at: place };
        answer_at(replicas, replica, txn, told, newest, txns, log);
        let given = Given {
            reply: newest,
            stamp: log.len() as u64,
        };
        give_if(is_given, txns, txn, given)
    }

    // It tells of waits.
    fn told_waits(&mut self, replica: u32, txn: TxnId, reply: RunReply)
        requires known { IsReplica self.old replica }
        requires out { is_run_of txn (replica_in self.old replica).out ≡ true }
        requires waits { is_wait (Some reply) ≡ true }
        ensures { self.new ≡ moves.after_waits self.old replica txn reply (waits_in (Some reply)) }
    {
        let View {
            replicas,
            replies,
            fresh,
            ..
        } = self;
        wait_at(replicas, replica, txn, replies.len());
        replies.push_reserved(reply);
        *fresh = Some(Fresh { replica, txn });
    }

    // It has no memory for it: nothing changed there.
    fn no_memory(&mut self, replica: u32, txn: TxnId)
        requires known { IsReplica self.old replica }
        requires out { is_run_of txn (replica_in self.old replica).out ≡ true }
        ensures { self.new ≡ moves.after_no_memory self.old replica txn }
    {
        let View {
            replicas,
            replies,
            fresh,
            ..
        } = self;
        free_at(replicas, replica);
        replies.push_reserved(RunReply::NoMemory);
        *fresh = Some(Fresh { replica, txn });
    }

    // It is lost.
    fn lost_at_run(&mut self, replica: u32, txn: TxnId)
        requires known { IsReplica self.old replica }
        requires out { is_run_of txn (replica_in self.old replica).out ≡ true }
        ensures { self.new ≡ moves.with_reply replica txn run.Lost (moves.after_loss self.old replica false) }
    {
        let View {
            log,
            txns,
            replicas,
            primary,
            replies,
            fresh,
            ..
        } = self;
        lose_at(replicas, replica, false, txns, log);
        *primary = other_than(replica, *primary);
        replies.push_reserved(RunReply::Lost);
        *fresh = Some(Fresh { replica, txn });
    }

    // A replica is lost at a commit, which is in doubt then, or at a rollback.
    fn lost(&mut self, replica: u32, in_doubt: bool)
        requires known { IsReplica self.old replica }
        requires out { loses (replica_in self.old replica).out ≡ Some in_doubt }
        ensures { self.new ≡ moves.after_loss self.old replica in_doubt }
    {
        let View {
            log,
            txns,
            replicas,
            primary,
            fresh,
            ..
        } = self;
        lose_at(replicas, replica, in_doubt, txns, log);
        *primary = other_than(replica, *primary);
        *fresh = None;
    }

    // A replica replies to a commit or a rollback.
    fn ended(&mut self, replica: u32, reply: EndReply)
        requires known { IsReplica self.old replica }
        requires fits { IsTrue (fits_job (answers.Ended reply) (replica_in self.old replica).out) }
        ensures { self.new ≡ moves.after_give self.old 0 replica (replica_in self.old replica).out (answers.Ended reply) }
    {
        match (self.out(replica), reply) {
            (Some(Job::Commit(txn)), EndReply::Done) => self.committed(replica, txn),
            (Some(Job::Commit(_)), EndReply::Lost) => self.lost(replica, true),
            (Some(Job::Rollback(txn)), EndReply::Done) => self.rolled_back(replica, txn),
            (Some(Job::Rollback(_)), EndReply::Lost) => self.lost(replica, false),
            _ => unreachable!(),
        }
    }

    // A replica commits a transaction.
    fn committed(&mut self, replica: u32, txn: TxnId)
        requires known { IsReplica self.old replica }
        requires out { (replica_in self.old replica).out ≡ Some (job.Commit txn) }
        ensures { self.new ≡ moves.after_commit self.old replica txn }
    {
        let View {
            log,
            txns,
            replicas,
            fresh,
            ..
        } = self;
        commit_at(replicas, replica, txn, txns, log);
        *fresh = None;
    }

    // A replica rolls a transaction back.
    fn rolled_back(&mut self, replica: u32, txn: TxnId)
        requires known { IsReplica self.old replica }
        requires out { (replica_in self.old replica).out ≡ Some (job.Rollback txn) }
        ensures { self.new ≡ moves.after_rollback self.old replica txn }
    {
        let View {
            log,
            txns,
            replicas,
            fresh,
            ..
        } = self;
        roll_back_at(replicas, replica, txn, txns, log);
        *fresh = None;
    }

    // A replica that was to be restarted is still lost.
    fn still_lost(&mut self, replica: u32)
        requires known { IsReplica self.old replica }
        requires out { (replica_in self.old replica).out ≡ Some job.Restart }
        ensures { self.new ≡ moves.after_still_lost self.old replica }
    {
        let View {
            replicas,
            fresh,
            ..
        } = self;
        free_at(replicas, replica);
        *fresh = None;
    }
}

// Whether an answer of a replica to this statement is given to the session.
fn is_given(primary: Option<u32>, replica: u32, txns: &[TxnState], txn: TxnId, index: u32) -> bool
    ensures { result ≡ is_some_of replica primary && history.is_open (plain_txn_in (map plain_txn txns.now) txn).phase && (index == length (plain_txn_in (map plain_txn txns.now) txn).given + 1) }
{
    is_replica(replica, primary)
        && is_open(phase_of(txns, txn))
        && index as usize == given_of(txns, txn).len() + 1
}

// Whether this is the primary.
fn is_replica(replica: u32, primary: Option<u32>) -> bool
    ensures { result ≡ is_some_of replica primary }
{
    match primary {
        Some(other) => replica == other,
        None => false,
    }
}

// Where an answer to a statement stands among the replies: in the place of the given one that it equals, or at their end.
fn place_of(replies: &[RunReply], given: &[Given], index: u32, answer: &Answer) -> usize
    ensures { (result ≡ length replies.now) ⊎ (slice_get replies.now result ≡ Some (run.Done answer.now)) }
{
    match numbered(given, index) {
        Some(first) if stands_at(replies, first.reply, answer) => first.reply,
        _ => replies.len(),
    }
}

// Whether this answer stands at a place among the replies.
fn stands_at(replies: &[RunReply], place: usize, answer: &Answer) -> bool
    ensures { IsTrue result → slice_get replies.now place ≡ Some (run.Done answer.now) }
{
    match done_at(replies, place) {
        Some(other) => same_answer(other, answer),
        None => false,
    }
}

// The given answer to the statement with this index, from 1.
fn numbered(given: &[Given], index: u32) -> Option<Given> {
    if index == 0 {
        return None;
    }
    given.get(index as usize - 1).copied()
}
