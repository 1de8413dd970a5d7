//! The job of a replica: first what is to be rolled back, then the next commit, then a run.
ghost use Rattle.std.specs.Prelude.{◌≡◌};
ghost use Rattle.hr_history.specs.Jobs.{job_in};
ghost use Rattle.hr_moves.specs.Sane.{IsReplica};

use crate::commits::to_commit;
use crate::rollbacks::to_roll_back;
use crate::runs::to_run;
use hr_progress::{Job, View};

/// The job that a replica is given next: none where it is convicted or has one out; a restart where it is lost; else the
/// first of these: the rollback of the lowest transaction that is to be rolled back there, the commit of the next of the
/// log where that is whole with the accepted answers, and the run that ranks first of those that may be.
pub fn next(view: &View, replica: u32) -> Option<Job>
    requires { IsReplica view.now replica }
    ensures { result ≡ job_in view.now replica }
{
    if view.is_convicted(replica) || view.out(replica).is_some() {
        return None;
    }
    if view.is_lost(replica) {
        return Some(Job::Restart);
    }
    if let Some(txn) = to_roll_back(view, replica) {
        return Some(Job::Rollback(txn));
    }
    if let Some(txn) = to_commit(view, replica) {
        return Some(Job::Commit(txn));
    }
    to_run(view, replica)
}
