//! Convictions: of the primary for a contradiction, and of those against which there is evidence.
ghost use Rattle.std.specs.Prelude.{◌≡◌};
ghost use Rattle.std.specs.Option.{option_map};
ghost use Rattle.hr_history.specs.Evidence as evidence;
ghost use Rattle.hr_history.specs.Rules as history;
ghost use Rattle.hr_due.specs.FollowUps.{events_of};
ghost use Rattle.hr_due.specs.Turns.{turn_in, count_in};

use crate::follow_up::FollowUp;
use crate::turn::{BadCount, Turn};
use hr_progress::View;
use hr_votes::{Evidence, evidence};

/// The primary is convicted where a transaction was just refused because its given answers are contradicted.
pub fn owed_conviction(view: &View, turn: &Turn) -> Option<FollowUp>
    ensures { events_of result ≡ history.owed_conviction view.now (turn_in turn.now) }
{
    match (turn.owed, view.primary()) {
        (Some(owed), Some(replica)) => Some(FollowUp::Convict {
            replica,
            evidence: Evidence::Contradicted {
                txn: owed.txn,
                index: owed.index,
            },
        }),
        _ => None,
    }
}

/// The lowest replica is convicted that isn't yet, and against which there is evidence.
pub fn convict(view: &View, turn: &Turn) -> Option<FollowUp>
    ensures { events_of result ≡ history.convict view.now (turn_in turn.now) }
{
    let end = 2 * view.f() + 1;
    'replicas: for replica in 0..end {
        match conviction_of(view, turn, replica) {
            Some(next) => return Some(next),
            None => continue,
        }
    }
    None
}

// A replica is convicted.
fn conviction_of(view: &View, turn: &Turn, replica: u32) -> Option<FollowUp>
    ensures { events_of result ≡ history.conviction_of view.now (turn_in turn.now) replica }
{
    match shown(view, turn, replica) {
        Some(evidence) if !view.is_convicted(replica) => {
            Some(FollowUp::Convict { replica, evidence })
        }
        _ => None,
    }
}

// What there is against a replica.
fn shown(view: &View, turn: &Turn, replica: u32) -> Option<Evidence>
    ensures { result ≡ evidence.evidence_of view.now replica (turn_in turn.now) }
{
    match evidence(view, replica) {
        Some(shown) => Some(shown),
        None => bad_restart(replica, turn.bad_count),
    }
}

// The count that a replica told at its restart, if it can't be right.
fn bad_restart(replica: u32, bad_count: Option<BadCount>) -> Option<Evidence>
    ensures { result ≡ evidence.bad_restart replica (option_map count_in bad_count) }
{
    match bad_count {
        Some(bad) if bad.replica == replica => Some(Evidence::BadRestart { count: bad.count }),
        _ => None,
    }
}
