//! The primary: who may be the next, and whether it is caught up.
#![tactic(auto)]

ghost use Rattle.std.specs.Prelude.{◌≡◌};
ghost use Rattle.hr_history.specs.Processed.{candidate_in, is_caught_up};
ghost use Rattle.hr_moves.specs.Sane.{IsReplica};

use hr_progress::View;

/// The candidate: the first live replica from the one after the start of the search on, and round to that. None where every
/// replica is lost or convicted.
pub fn candidate(view: &View) -> Option<u32>
    ensures { result ≡ candidate_in view.now }
{
    view.candidate()
}

/// Whether a replica has committed the whole log.
pub fn caught_up(view: &View, replica: u32) -> bool
    requires { IsReplica view.now replica }
    ensures { result ≡ is_caught_up view.now replica }
{
    view.position(replica) == view.commits()
}
