//! What the calls of the shepherd change. The turn before is over.
ghost use Rattle.std.specs.Prelude.{◌≡◌, ℕ, ◌+◌, ◌*◌, ◌^◌, ◌<◌, ◌≤◌, Some, false, length, map, OnOk, OnErr, IsTrue};
ghost use Rattle.hr_rel.specs.declared.stmt.Stmt.{Stmt};
ghost use Rattle.hr_history.specs.declared.entry.Event.TheVariants as event;
ghost use Rattle.hr_history.specs.Faithful.{is_restart};
ghost use Rattle.hr_history.specs.Processed.{txn_in, replica_in};
ghost use Rattle.hr_history.specs.declared.job.Job.TheVariants as job;
ghost use Rattle.hr_history.specs.Jobs.{job_in};
ghost use Rattle.hr_history.specs.Primary as history;
ghost use Rattle.hr_history.specs.Step.{view_step};
ghost use Rattle.hr_moves.specs.Sane.{IsReplica};
ghost use Rattle.hr_moves.specs.Fits.{IsOpen};
ghost use Rattle.hr_progress.specs.Plain.{plain_progress, live_of};
ghost use Rattle.hr_progress.specs.Kept.{is_run};

use crate::progress::{Progress, candidate_after, restart_at, send, send_run};
use crate::txn::{add_statement, begin, close, set_phase};
use crate::view::View;
use hr_base::limits::MAX_STATEMENTS;
use hr_engine::TxnId;
use hr_history::{Job, Phase};
use std::alloc::{AllocError, Global};

impl View {
    /// A session begins a transaction, with the next number.
    pub fn begin(&mut self, alloc: Global, session: u32) -> Result<(), AllocError>
        ensures ok { OnOk result ((place asks : ℕ) → self.new ≡ view_step self.old place asks (event.Begin session (length self.old.txns + 1))) }
        ensures err { OnErr result (self.new ≡ self.old) }
    {
        let View {
            log,
            txns,
            opened,
            fresh,
            ..
        } = self;
        log.reserve(opened.len() + 1)?;
        opened.reserve(1)?;
        let txn = txns.len() as u64 + 1;
        begin(alloc, txns, session)?;
        opened.push_reserved(txn);
        *fresh = None;
        Ok(())
    }

    /// A session submits the next statement of its open transaction.
    pub fn submit(&mut self, txn: TxnId) -> Result<(), AllocError>
        requires open { IsOpen self.old txn }
        requires few { (txn_in self.old txn).statements < MAX_STATEMENTS }
        ensures ok { OnOk result ((place asks index : ℕ) (stmt : Stmt) → self.new ≡ view_step self.old place asks (event.Submit txn index stmt)) }
        ensures err { OnErr result (self.new ≡ self.old) }
    {
        let View { txns, fresh, .. } = self;
        add_statement(txns, txn)?;
        *fresh = None;
        Ok(())
    }

    /// A session asks for its open transaction to be committed, after so many such calls of all sessions.
    pub fn ask_commit(&mut self, txn: TxnId, asks: u64)
        requires open { IsOpen self.old txn }
        requires few { asks + 1 < 2 ^ 64 }
        ensures { (place : ℕ) → self.new ≡ view_step self.old place asks (event.AskCommit txn) }
    {
        let View { txns, fresh, .. } = self;
        set_phase(txns, txn, Phase::Asked(asks + 1));
        *fresh = None;
    }

    /// A session has its open transaction rolled back.
    pub fn ask_rollback(&mut self, txn: TxnId)
        requires { IsOpen self.old txn }
        ensures { (place asks : ℕ) → self.new ≡ view_step self.old place asks (event.AskRollback txn) }
    {
        let View {
            txns,
            opened,
            fresh,
            ..
        } = self;
        set_phase(txns, txn, Phase::RolledBack);
        close(opened, txn);
        *fresh = None;
    }

    /// A replica is restarted, and tells how many commits it has made.
    pub fn restarted(&mut self, replica: u32, count: u64)
        requires known { IsReplica self.old replica }
        requires out { IsTrue (is_restart (replica_in self.old replica).out) }
        ensures { (place asks : ℕ) → self.new ≡ view_step self.old place asks (event.Restarted replica count) }
    {
        let View {
            log,
            txns,
            replicas,
            fresh,
            ..
        } = self;
        restart_at(replicas, replica, count, txns, log);
        *fresh = None;
    }

    /// A replica is given its job. What the reply, and what follows from it, may add has its place from now on.
    pub fn take(&mut self, alloc: Global, replica: u32, job: Job) -> Result<(), AllocError>
        requires known { IsReplica self.old replica }
        requires job { job_in self.old replica ≡ Some job }
        ensures ok { OnOk result ((place asks : ℕ) → self.new ≡ view_step self.old place asks (event.Take replica job)) }
        ensures err { OnErr result (self.new ≡ self.old) }
    {
        if let Job::Run(txn, index) = job {
            return self.take_run(alloc, replica, txn, index);
        }
        self.take_other(replica, job);
        Ok(())
    }

    // It is given a statement to run.
    fn take_run(
        &mut self,
        alloc: Global,
        replica: u32,
        txn: TxnId,
        index: u32,
    ) -> Result<(), AllocError>
        requires known { IsReplica self.old replica }
        requires job { job_in self.old replica ≡ Some (job.Run txn index) }
        ensures ok { OnOk result ((place asks : ℕ) → self.new ≡ view_step self.old place asks (event.Take replica (job.Run txn index))) }
        ensures err { OnErr result (self.new ≡ self.old) }
    {
        let View {
            replicas,
            replies,
            fresh,
            ..
        } = self;
        replies.reserve(replicas.len())?;
        send_run(alloc, replicas, replica, txn, index)?;
        *fresh = None;
        Ok(())
    }

    // It is given another job.
    fn take_other(&mut self, replica: u32, job: Job)
        requires known { IsReplica self.old replica }
        requires job { job_in self.old replica ≡ Some job }
        requires other { is_run (Some job) ≡ false }
        ensures { (place asks : ℕ) → self.new ≡ view_step self.old place asks (event.Take replica job) }
    {
        let View {
            replicas,
            fresh,
            ..
        } = self;
        send(replicas, replica, job);
        *fresh = None;
    }

    /// The primary is suspected: there is none then. A further suspicion lets the search for a candidate go on behind the
    /// one that it would have found.
    pub fn suspect(&mut self)
        ensures { (place asks : ℕ) → self.new ≡ view_step self.old place asks event.Suspect }
    {
        let View {
            f,
            replicas,
            primary,
            search_after,
            fresh,
            ..
        } = self;
        *search_after = start_at_suspect(*primary, *f, *search_after, replicas);
        *primary = None;
        *fresh = None;
    }
}

// Where the search for a candidate starts after a suspicion.
fn start_at_suspect(primary: Option<u32>, f: u32, start: u32, replicas: &[Progress]) -> u32
    requires few { f ≤ 3 }
    requires known { start ≤ 2 * f }
    ensures { result ≡ history.start_at_suspect primary (history.candidate_after f (live_of (map plain_progress replicas.now)) start) start }
{
    match primary {
        Some(_) => start,
        None => candidate_after(replicas, f, start).unwrap_or(start),
    }
}
