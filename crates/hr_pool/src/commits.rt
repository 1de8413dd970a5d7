//! Commits: which transaction is next in the log, and whether it may be committed.
ghost use Rattle.std.specs.Prelude.{◌≡◌};
ghost use Rattle.std.specs.Option.{option_map};
ghost use Rattle.hr_history.specs.declared.job.Job.TheVariants as job;
ghost use Rattle.hr_history.specs.Jobs.{next_in_log, commit_job};

use hr_engine::TxnId;
use hr_progress::View;

/// The transaction that is to be committed at a replica: the next of the log, where it is whole there with the accepted
/// answers.
pub fn to_commit(view: &View, replica: u32) -> Option<TxnId>
    ensures { option_map (λ t. job.Commit t) result ≡ commit_job view.now replica }
{
    let txn = next_in_log(view, replica)?;
    if view.is_whole(replica, txn) && view.same_as_given(replica, txn) {
        Some(txn)
    } else {
        None
    }
}

/// The transaction that comes next in the log at a replica.
fn next_in_log(view: &View, replica: u32) -> Option<TxnId>
    ensures { result ≡ next_in_log view.now replica }
{
    view.log().get(view.position(replica) as usize).copied()
}
