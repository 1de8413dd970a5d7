//! A replica replies: its backend is called with the job that is out, and what it answers is given.
ghost use Rattle.std.specs.Prelude.{◌≡◌, ◌≤◌, ◌*◌, ℕ, Some};
ghost use Rattle.hr_engine.specs.Journal.{Ran};
ghost use Rattle.hr_engine.specs.Backend.{Extends, AnswersCanonically};
ghost use Rattle.hr_history.specs.declared.job.Job.TheVariants as job;
ghost use Rattle.hr_history.specs.Replicas.{out_at, journal_of, stmt_at};
ghost use Rattle.hr_ledger.specs.Chronicle.{history_in};
ghost use Rattle.hr_schedule.specs.Choices.{GiveReply};
ghost use Rattle.hr_driver.specs.Made.{Made, Replied, StandsOn, AreSameTries};

use hr_engine::{Backend, RunReply, TxnId};
use hr_history::{Job, JobReply};
use hr_shepherd::Shepherd;
use std::alloc::Global;

/// The backend of a replica is called with the job that is out there, if one is, and its reply is given.
pub fn give_reply<B: Backend>(alloc: Global, shepherd: &mut Shepherd, backend: &mut B, replica: u32)
    requires known { replica ≤ 2 * shepherd.old.f }
    ensures made { Made (GiveReply shepherd.old.f replica) shepherd.old shepherd.new }
    ensures stands { StandsOn (B.stands backend.old) (B.stands backend.new) replica shepherd.old shepherd.new }
    ensures others { (q : ℕ) → (q ≡ replica → ⊥) → journal_of q (history_in shepherd.new) ≡ journal_of q (history_in shepherd.old) }
    ensures tries { AreSameTries shepherd.old shepherd.new }
    ensures make { B.make backend.new ≡ B.make backend.old }
{
    match shepherd.view().out(replica) {
        None => {}
        Some(Job::Run(txn, index)) => run_out(alloc, shepherd, backend, replica, txn, index),
        Some(Job::Commit(txn)) => commit_out(shepherd, backend, replica, txn),
        Some(Job::Rollback(txn)) => roll_back_out(shepherd, backend, replica, txn),
        Some(Job::Restart) => restart_out(shepherd, backend, replica),
    }
}

fn run_out<B: Backend>(
    alloc: Global,
    shepherd: &mut Shepherd,
    backend: &mut B,
    replica: u32,
    txn: TxnId,
    _index: u32,
)
    requires known { replica ≤ 2 * shepherd.old.f }
    requires out { out_at replica (history_in shepherd.old) ≡ Some (job.Run txn _index) }
    ensures replied { Replied (B.stands backend.old) (B.stands backend.new) replica shepherd.old shepherd.new }
    ensures make { B.make backend.new ≡ B.make backend.old }
{
    let reply = run_lent(alloc, shepherd, backend, replica, txn, _index);
    shepherd.give(u64::from(replica) + 1, replica, JobReply::Ran(reply));
}

// The statement that is out is lent: nothing is copied.
fn run_lent<B: Backend>(
    alloc: Global,
    shepherd: &Shepherd,
    backend: &mut B,
    replica: u32,
    txn: TxnId,
    _index: u32,
) -> RunReply
    requires known { replica ≤ 2 * shepherd.now.f }
    requires out { out_at replica (history_in shepherd.now) ≡ Some (job.Run txn _index) }
    ensures journal { Extends (B.stands backend.old) (B.stands backend.new) (Ran txn (stmt_at (history_in shepherd.now) txn _index) result) }
    ensures canonical { AnswersCanonically result }
    ensures make { B.make backend.new ≡ B.make backend.old }
{
    match shepherd.statement_out(replica) {
        Some(stmt) => backend.run(alloc, txn, stmt),
        // a run that is out has its statement
        None => RunReply::NoMemory,
    }
}

fn commit_out<B: Backend>(shepherd: &mut Shepherd, backend: &mut B, replica: u32, txn: TxnId)
    requires known { replica ≤ 2 * shepherd.old.f }
    requires out { out_at replica (history_in shepherd.old) ≡ Some (job.Commit txn) }
    ensures replied { Replied (B.stands backend.old) (B.stands backend.new) replica shepherd.old shepherd.new }
    ensures make { B.make backend.new ≡ B.make backend.old }
{
    let reply = backend.commit(txn);
    shepherd.give(u64::from(replica) + 1, replica, JobReply::Ended(reply));
}

fn roll_back_out<B: Backend>(shepherd: &mut Shepherd, backend: &mut B, replica: u32, txn: TxnId)
    requires known { replica ≤ 2 * shepherd.old.f }
    requires out { out_at replica (history_in shepherd.old) ≡ Some (job.Rollback txn) }
    ensures replied { Replied (B.stands backend.old) (B.stands backend.new) replica shepherd.old shepherd.new }
    ensures make { B.make backend.new ≡ B.make backend.old }
{
    let reply = backend.rollback(txn);
    shepherd.give(u64::from(replica) + 1, replica, JobReply::Ended(reply));
}

fn restart_out<B: Backend>(shepherd: &mut Shepherd, backend: &mut B, replica: u32)
    requires known { replica ≤ 2 * shepherd.old.f }
    requires out { out_at replica (history_in shepherd.old) ≡ Some job.Restart }
    ensures replied { Replied (B.stands backend.old) (B.stands backend.new) replica shepherd.old shepherd.new }
    ensures make { B.make backend.new ≡ B.make backend.old }
{
    match backend.restart() {
        Ok(count) => shepherd.restarted(u64::from(replica) + 1, replica, count),
        Err(_) => shepherd.give(u64::from(replica) + 1, replica, JobReply::StillLost),
    }
}
