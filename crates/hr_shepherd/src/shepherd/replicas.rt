//! The calls of replicas: a job is taken, and replied to.
ghost use Rattle.std.specs.Prelude.{◌≡◌, ◌≤◌, ◌*◌, Some, IfOk, IfErr, OnErr, IsTrue, is_some, option_copied};
ghost use Rattle.hr_rel.specs.Database.{Database};
ghost use Rattle.hr_history.specs.Faithful.{fits_job, is_restart, replica_caller};
ghost use Rattle.hr_history.specs.Replicas.{out_at};
ghost use Rattle.hr_history.specs.Words as words;
ghost use Rattle.hr_history.specs.declared.entry.Event.TheVariants as event;
ghost use Rattle.hr_moves.specs.Callers.{Grows};
ghost use Rattle.hr_ledger.specs.Chronicle.{history_in};
ghost use Rattle.hr_core.specs.Turns.{HasTurn};
ghost use Rattle.hr_shepherd.specs.Promises.{KeepsBarrier, ConvictsLiars};
ghost use Rattle.hr_shepherd.specs.Taken.{IsTaken, statement_of, order_of, HasStatement};
ghost use Rattle.hr_shepherd.specs.declared.refusal.Refusal.TheVariants as refusal;

use crate::order::Order;
use crate::refusal::Refusal;
use crate::shepherd::Shepherd;
use hr_history::{Job, JobReply};
use hr_pool::next;
use hr_rel::{Stmt, TryCopy};
use std::alloc::{AllocError, Global};

impl Shepherd {
    /// A replica is given its job, with a copy of the statement that it is to run, if it is to run one. The job is what has to
    /// be rolled back first, then the next commit, then a run. None where no job may be given; then nothing changes. Refused
    /// only for want of memory, and only where there is a job.
    pub fn take(
        &mut self,
        alloc: Global,
        caller: u64,
        replica: u32,
    ) -> Result<Option<Order>, Refusal>
        requires known { replica ≤ 2 * self.old.f }
        requires caller { caller ≡ replica_caller replica }
        ensures order { IfOk result (λ taken. taken ≡ order_of (words.job self.old.f (history_in self.old) replica) (history_in self.old)) }
        ensures ok { IfOk result (λ taken. IsTaken caller replica (words.job self.old.f (history_in self.old) replica) self.old self.new) }
        ensures refused { IfErr result (λ given. given ≡ refusal.Memory) }
        ensures wanted { OnErr result (IsTrue (is_some (words.job self.old.f (history_in self.old) replica))) }
        ensures err { OnErr result (self.new ≡ self.old) }
        ensures grows { Grows caller self.old.entries self.new.entries }
    {
        let Some(job) = next(self.core.ledger().view(), replica) else {
            return Ok(None);
        };
        self.core.ledger().begun();
        let stmt = self.statement_for(alloc, job)?;
        self.core.take(alloc, caller, replica, job)?;
        Ok(Some(Order { job, stmt }))
    }

    /// The same, without the statement, which [`statement_out`](Shepherd::statement_out) then lends. Nothing is copied.
    pub fn take_job(
        &mut self,
        alloc: Global,
        caller: u64,
        replica: u32,
    ) -> Result<Option<Job>, Refusal>
        requires known { replica ≤ 2 * self.old.f }
        requires caller { caller ≡ replica_caller replica }
        ensures job { IfOk result (λ taken. taken ≡ words.job self.old.f (history_in self.old) replica) }
        ensures ok { IfOk result (λ taken. IsTaken caller replica taken self.old self.new) }
        ensures refused { IfErr result (λ given. given ≡ refusal.Memory) }
        ensures wanted { OnErr result (IsTrue (is_some (words.job self.old.f (history_in self.old) replica))) }
        ensures err { OnErr result (self.new ≡ self.old) }
        ensures grows { Grows caller self.old.entries self.new.entries }
    {
        let Some(job) = next(self.core.ledger().view(), replica) else {
            return Ok(None);
        };
        self.core.take(alloc, caller, replica, job)?;
        Ok(Some(job))
    }

    // A copy of the statement that a job is to run, if it is to run one.
    fn statement_for(&self, alloc: Global, job: Job) -> Result<Option<Stmt>, AllocError>
        requires { HasStatement job (history_in self.now) }
        ensures { IfOk result (λ stmt. stmt ≡ statement_of (Some job) (history_in self.now)) }
    {
        match job {
            Job::Run(txn, index) => copied(alloc, self.core.ledger().statement(txn, index)),
            Job::Commit(_) | Job::Rollback(_) | Job::Restart => Ok(None),
        }
    }

    /// The job that is out at a replica, if one is.
    pub fn job_out(&self, replica: u32) -> Option<Job>
        requires { replica ≤ 2 * self.now.f }
        ensures { result ≡ out_at replica (history_in self.now) }
    {
        self.core.ledger().view().out(replica)
    }

    /// The statement of the run that is out at a replica, if one is.
    pub fn statement_out(&self, replica: u32) -> Option<&Stmt>
        requires { replica ≤ 2 * self.now.f }
        ensures { option_copied result ≡ statement_of (out_at replica (history_in self.now)) (history_in self.now) }
    {
        self.core.ledger().begun();
        match self.core.ledger().view().out(replica) {
            Some(Job::Run(txn, index)) => self.core.ledger().statement(txn, index),
            Some(Job::Commit(_)) => None,
            Some(Job::Rollback(_)) => None,
            Some(Job::Restart) => None,
            None => None,
        }
    }

    /// A replica replies to its job. It takes no memory, and isn't refused.
    pub fn give(&mut self, caller: u64, replica: u32, reply: JobReply)
        requires known { replica ≤ 2 * self.old.f }
        requires caller { caller ≡ replica_caller replica }
        requires fits { IsTrue (fits_job reply (out_at replica (history_in self.old))) }
        ensures turn { HasTurn caller (event.Give replica reply) self.old self.new }
        ensures grows { Grows caller self.old.entries self.new.entries }
        ensures barrier { (db : Database) → KeepsBarrier db (history_in self.new) }
        ensures not_convicted { (db : Database) → ConvictsLiars self.new.f db (history_in self.new) }
    {
        self.core.give(caller, replica, reply);
        self.core.ledger().begun();
    }

    /// A replica is restarted, and tells how many commits it has made. It takes no memory, and isn't refused.
    pub fn restarted(&mut self, caller: u64, replica: u32, count: u64)
        requires known { replica ≤ 2 * self.old.f }
        requires caller { caller ≡ replica_caller replica }
        requires out { IsTrue (is_restart (out_at replica (history_in self.old))) }
        ensures turn { HasTurn caller (event.Restarted replica count) self.old self.new }
        ensures grows { Grows caller self.old.entries self.new.entries }
        ensures barrier { (db : Database) → KeepsBarrier db (history_in self.new) }
        ensures not_convicted { (db : Database) → ConvictsLiars self.new.f db (history_in self.new) }
    {
        self.core.restarted(caller, replica, count);
        self.core.ledger().begun();
    }
}

fn copied(alloc: Global, stmt: Option<&Stmt>) -> Result<Option<Stmt>, AllocError>
    ensures { IfOk result (λ copy. copy ≡ option_copied stmt.entry) }
{
    match stmt {
        Some(stmt) => {
            let copy = stmt.try_copy(alloc)?;
            Ok(Some(copy))
        }
        None => Ok(None),
    }
}
