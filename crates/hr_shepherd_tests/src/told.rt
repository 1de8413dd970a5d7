//! What replicas reply in the rows.
ghost use Rattle.std.specs.Prelude.{◌≡◌, [], ◌∷◌, IfOk};
ghost use Rattle.hr_rel.specs.declared.answer.Answer.TheVariants.{Rows};
ghost use Rattle.hr_engine.specs.declared.reply.RunReply.TheVariants as run;
ghost use Rattle.hr_history.specs.declared.job.JobReply.TheVariants as replies;
ghost use Rattle.hr_history.specs.Faithful.{fits_job};
ghost use Rattle.hr_meaning.specs.Worked.{one};
ghost use Rattle.hr_shepherd_tests.specs.Told.{reply_of};

use hr_engine::{EndReply, RunReply, TxnId};
use hr_history::{Job, JobReply};
use hr_rel::{Answer, Seq, Value};
use std::alloc::{AllocError, Global};

/// What a replica replies.
#[derive(Clone, Copy, Debug)]
pub enum Told {
    /// A statement changed one row.
    Wrote,
    /// A query found one row, with this value.
    Read(u8),
    /// A statement has to wait for this transaction.
    Blocked(TxnId),
    /// A statement closes a cycle of waits of these two.
    Deadlock(TxnId, TxnId),
    /// The replica is lost in a statement.
    RunLost,
    /// It has no memory for a statement.
    NoMemory,
    /// A commit or a rollback is done.
    Ended,
    /// The replica is lost in it.
    EndLost,
    /// A restart didn't help.
    StillLost,
}

/// Whether it is a reply to a replica's job.
pub fn fits(told: Told, out: Option<Job>) -> bool
    ensures { result ≡ fits_job (reply_of told) out }
{
    match (told, out) {
        (
            Told::Wrote
            | Told::Read(_)
            | Told::Blocked(_)
            | Told::Deadlock(_, _)
            | Told::RunLost
            | Told::NoMemory,
            Some(Job::Run(_, _)),
        ) => true,
        (Told::Ended | Told::EndLost, Some(Job::Commit(_) | Job::Rollback(_))) => true,
        (Told::StillLost, Some(Job::Restart)) => true,
        _ => false,
    }
}

/// The reply.
pub fn reply(alloc: Global, told: Told) -> Result<JobReply, AllocError>
    ensures { IfOk result (λ reply. reply ≡ reply_of told) }
{
    match told {
        Told::Wrote => Ok(JobReply::Ran(RunReply::Done(Answer::Count(1)))),
        Told::Read(value) => read(alloc, value),
        Told::Blocked(txn) => blocked(alloc, txn),
        Told::Deadlock(txn, other) => deadlock(alloc, txn, other),
        Told::RunLost => Ok(JobReply::Ran(RunReply::Lost)),
        Told::NoMemory => Ok(JobReply::Ran(RunReply::NoMemory)),
        Told::Ended => Ok(JobReply::Ended(EndReply::Done)),
        Told::EndLost => Ok(JobReply::Ended(EndReply::Lost)),
        Told::StillLost => Ok(JobReply::StillLost),
    }
}

// A query found one row, with this value.
fn read(alloc: Global, value: u8) -> Result<JobReply, AllocError>
    ensures { IfOk result (λ told. told ≡ replies.Ran (run.Done (Rows (one value ∷ [])))) }
{
    let mut row = Seq::new(alloc);
    row.push(Value::Int(value as i64))?;
    let mut rows = Seq::new(alloc);
    rows.push(row)?;
    Ok(JobReply::Ran(RunReply::Done(Answer::Rows(rows))))
}

// A statement has to wait for this transaction.
fn blocked(alloc: Global, txn: TxnId) -> Result<JobReply, AllocError>
    ensures { IfOk result (λ told. told ≡ replies.Ran (run.Blocked (txn ∷ []))) }
{
    let mut named = Seq::new(alloc);
    named.push(txn)?;
    Ok(JobReply::Ran(RunReply::Blocked(named)))
}

// A statement closes a cycle of waits of these two.
fn deadlock(alloc: Global, txn: TxnId, other: TxnId) -> Result<JobReply, AllocError>
    ensures { IfOk result (λ told. told ≡ replies.Ran (run.Deadlock (txn ∷ other ∷ []))) }
{
    let mut cycle = Seq::new(alloc);
    cycle.push(txn)?;
    cycle.push(other)?;
    Ok(JobReply::Ran(RunReply::Deadlock(cycle)))
}
