//! A view in which transactions wait for one another.
ghost use Rattle.std.specs.Prelude.{◌≡◌, ◌≤◌, Some, IsTrue};
ghost use Rattle.hr_history.specs.declared.job.Job.TheVariants as job;
ghost use Rattle.hr_history.specs.Processed.{replica_in};

use crate::views::{Size, finish, submit};
use hr_engine::{RunReply, TxnId};
use hr_history::JobReply;
use hr_pool::next;
use hr_progress::{Job, View};
use hr_rel::{Answer, Seq};
use std::alloc::{AllocError, Global};

/// A view of this size in which the open transactions run at the primary, and each waits there for all before it. The turn's
/// reply is the one to the last of them.
pub fn all_wait(alloc: Global, size: &Size) -> Result<View, AllocError>
    requires { size.now.f ≤ 3 }
{
    let mut view = View::new(alloc, size.f)?;
    finish(alloc, &mut view, size.finished)?;
    let first = size.finished as u64 + 1;
    for before in 0..size.open {
        view.begin(alloc, 1)?;
        submit(&mut view)?;
        run(alloc, &mut view)?;
        if before > 0 {
            submit(&mut view)?;
            wait(alloc, &mut view, first)?;
        }
    }
    Ok(view)
}

// The primary runs its next statement, and answers it.
fn run(alloc: Global, view: &mut View) -> Result<(), AllocError> {
    if let Some(job) = next(view, 0) {
        view.take(alloc, 0, job)?;
        if let Some(Job::Run(_, _)) = view.out(0) {
            view.give(0, JobReply::Ran(RunReply::Done(Answer::Count(0))), 0);
        }
    }
    Ok(())
}

// The primary runs its next statement, which has to wait for all transactions from the first open one to its own.
fn wait(alloc: Global, view: &mut View, first: TxnId) -> Result<(), AllocError> {
    if let Some(job) = next(view, 0) {
        view.take(alloc, 0, job)?;
        if let Some(Job::Run(txn, _)) = view.out(0) {
            let named = before(alloc, first, txn)?;
            view.give(0, JobReply::Ran(RunReply::Blocked(named)), 0);
        }
    }
    Ok(())
}

// The transactions from one to the one before another.
fn before(alloc: Global, first: TxnId, txn: TxnId) -> Result<Seq<TxnId>, AllocError> {
    let mut named = Seq::new(alloc);
    for other in first..txn {
        named.push(other)?;
    }
    Ok(named)
}
