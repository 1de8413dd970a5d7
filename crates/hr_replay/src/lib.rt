//! Restarts: what a replica's count of commits says, and how much of the log it has yet to commit.
#![tactic(auto)]

ghost use Rattle.std.specs.Prelude.{◌≡◌, ◌-◌, length};
ghost use Rattle.hr_history.specs.Processed.{replica_in};
ghost use Rattle.hr_moves.specs.Outcomes.{settle_in};
ghost use Rattle.hr_moves.specs.Sane.{IsReplica};

pub use hr_moves::Settled;
use hr_progress::View;

/// How many commits a replica has made that tells this count at its restart: one more than those that count where one is
/// in doubt and the count says that it was made, else those that count. `Wrong` where no correct replica tells it.
pub fn settle(view: &View, replica: u32, count: u64) -> Settled
    requires { IsReplica view.now replica }
    ensures { result ≡ settle_in (replica_in view.now replica) count }
{
    // a commit in doubt is one of the log's, so its number is one of 64 bits
    view.sane();
    let _commits = view.commits();
    let position = view.position(replica);
    if view.is_in_doubt(replica) && count == position + 1 {
        Settled::At(position + 1)
    } else if count == position {
        Settled::At(position)
    } else {
        Settled::Wrong
    }
}

/// How many transactions of the log a replica has yet to commit.
pub fn missed(view: &View, replica: u32) -> u64
    requires { IsReplica view.now replica }
    ensures { result ≡ length view.now.log - (replica_in view.now replica).position }
{
    view.sane();
    view.commits() - view.position(replica)
}
