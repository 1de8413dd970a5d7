//! What one choice makes: of a replica, and of a session.
ghost use Rattle.std.specs.Prelude.{◌≡◌, ◌≤◌, ◌*◌, OnOk};
ghost use Rattle.hr_core.specs.Turns.{IsSameSize};
ghost use Rattle.hr_ledger.specs.Chronicle.{history_in};
ghost use Rattle.hr_schedule.specs.Tries.{last_try};
ghost use Rattle.hr_schedule.specs.Choices.{OfReplica, OfSession};
ghost use Rattle.hr_driver.specs.Made.{Made, StandsOn, AreSameOthers, AreSameJournals, AreSameTries, AreSameTriesBut, IsSessionOf};

use crate::reply::give_reply;
use crate::script::make_call;
use crate::take::{suspect_all, take_job};
use hr_engine::Backend;
use hr_said::Scenario;
use hr_schedule::Try;
use hr_shepherd::Shepherd;
use std::alloc::{AllocError, Global};

/// A replica takes its job and replies to it, and the suspicions that are due come behind. Whether or not memory is refused on
/// the way, its backend stands for its journal, no other journal has changed, and no session's tries.
pub fn choose_replica<B: Backend>(
    alloc: Global,
    scenario: &Scenario,
    shepherd: &mut Shepherd,
    backend: &mut B,
    replica: u32,
) -> Result<(), AllocError>
    requires size { shepherd.old.f ≡ scenario.now.f }
    requires known { replica ≤ 2 * shepherd.old.f }
    ensures ok { OnOk result (Made (OfReplica scenario.now replica) shepherd.old shepherd.new) }
    ensures size { IsSameSize shepherd.old shepherd.new }
    ensures stands { StandsOn (B.stands backend.old) (B.stands backend.new) replica shepherd.old shepherd.new }
    ensures others { AreSameOthers replica shepherd.old shepherd.new }
    ensures tries { AreSameTries shepherd.old shepherd.new }
    ensures make { B.make backend.new ≡ B.make backend.old }
{
    take_job(alloc, shepherd, replica)?;
    give_reply(alloc, shepherd, backend, replica);
    suspect_all(scenario, shepherd)
}

/// A session makes the next call of its script, and the suspicions that are due come behind. Whether or not memory is refused
/// on the way, `last` is its last try, the other sessions' tries stand, and no journal has changed.
pub fn choose_session(
    alloc: Global,
    scenario: &Scenario,
    shepherd: &mut Shepherd,
    last: &mut Option<Try>,
    session: u32,
) -> Result<(), AllocError>
    requires known { IsSessionOf scenario.now session shepherd.old }
    requires last { last.old ≡ last_try scenario.now.retries session (history_in shepherd.old) }
    ensures ok { OnOk result (Made (OfSession scenario.now session) shepherd.old shepherd.new) }
    ensures size { IsSameSize shepherd.old shepherd.new }
    ensures journals { AreSameJournals shepherd.old shepherd.new }
    ensures others { AreSameTriesBut session shepherd.old shepherd.new }
    ensures last { last.new ≡ last_try scenario.now.retries session (history_in shepherd.new) }
{
    make_call(alloc, scenario, shepherd, last, session)?;
    suspect_all(scenario, shepherd)
}
