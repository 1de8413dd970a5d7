//! A round: every session makes its choice, and then every replica.
ghost use Rattle.std.specs.Prelude.{◌≡◌, ◌≤◌, ◌<◌, ◌*◌, ◌+◌, length, map, OnOk};
ghost use Rattle.hr_base.specs.Lists.{one_to};
ghost use Rattle.hr_base.specs.declared.limits.TheConstants.{MAX_SESSIONS};
ghost use Rattle.hr_history.specs.ReplicaNumbers.{replica_numbers};
ghost use Rattle.hr_core.specs.Turns.{IsSameSize};
ghost use Rattle.hr_schedule.specs.Choices.{Each, GiveReply, OfReplica, OfSession};
ghost use Rattle.hr_driver.specs.Made.{Made, AreSameJournals, AreSameTries};
ghost use Rattle.hr_driver.specs.Whole.{IsUnder, AreAll, StandOn};

use crate::choice::{choose_replica, choose_session};
use crate::reply::give_reply;
use hr_engine::Backend;
use hr_said::Scenario;
use hr_schedule::Try;
use hr_shepherd::Shepherd;
use std::alloc::{AllocError, Global};

/// Every session makes its choice, in their order. Whether or not memory is refused on the way, the tries are the last ones,
/// and no journal has changed.
pub fn each_session(
    alloc: Global,
    scenario: &Scenario,
    shepherd: &mut Shepherd,
    tries: &mut [Option<Try>],
) -> Result<(), AllocError>
    requires few { length scenario.now.scripts ≤ MAX_SESSIONS }
    requires under { IsUnder scenario.now tries.old shepherd.old }
    ensures ok { OnOk result (Made (Each (OfSession scenario.now) (one_to (length scenario.now.scripts))) shepherd.old shepherd.new) }
    ensures under { IsUnder scenario.now tries.new shepherd.new }
    ensures journals { AreSameJournals shepherd.old shepherd.new }
{
    let count = scenario.scripts.len() as u32;
    'sessions: for place in 0..count {
        session_at(alloc, scenario, shepherd, tries, place)?;
    }
    Ok(())
}

/// The choice of the session at this place, from 0.
pub fn session_at(
    alloc: Global,
    scenario: &Scenario,
    shepherd: &mut Shepherd,
    tries: &mut [Option<Try>],
    place: u32,
) -> Result<(), AllocError>
    requires few { length scenario.now.scripts ≤ MAX_SESSIONS }
    requires known { place < length scenario.now.scripts }
    requires under { IsUnder scenario.now tries.old shepherd.old }
    ensures ok { OnOk result (Made (OfSession scenario.now (place + 1)) shepherd.old shepherd.new) }
    ensures under { IsUnder scenario.now tries.new shepherd.new }
    ensures journals { AreSameJournals shepherd.old shepherd.new }
{
    choose_session(
        alloc,
        scenario,
        shepherd,
        &mut tries[place as usize],
        place + 1,
    )
}

/// Every replica makes its choice, in their order. Whether or not memory is refused on the way, the backends stand for their
/// journals, and no session's tries have changed.
pub fn each_replica<B: Backend>(
    alloc: Global,
    scenario: &Scenario,
    shepherd: &mut Shepherd,
    backends: &mut [B],
) -> Result<(), AllocError>
    requires size { shepherd.old.f ≡ scenario.now.f }
    requires all { AreAll scenario.now backends.old }
    ensures ok { OnOk result (Made (Each (OfReplica scenario.now) (replica_numbers scenario.now.f)) shepherd.old shepherd.new) }
    ensures size { IsSameSize shepherd.old shepherd.new }
    ensures stands { StandOn B.stands backends.old backends.new shepherd.old shepherd.new }
    ensures make { map B.make backends.new ≡ map B.make backends.old }
    ensures tries { AreSameTries shepherd.old shepherd.new }
{
    let count = 2 * shepherd.view().f() + 1;
    'replicas: for replica in 0..count {
        replica_at(alloc, scenario, shepherd, backends, replica)?;
    }
    Ok(())
}

/// The choice of the replica with this number.
pub fn replica_at<B: Backend>(
    alloc: Global,
    scenario: &Scenario,
    shepherd: &mut Shepherd,
    backends: &mut [B],
    replica: u32,
) -> Result<(), AllocError>
    requires known { replica ≤ 2 * scenario.now.f }
    requires size { shepherd.old.f ≡ scenario.now.f }
    requires all { AreAll scenario.now backends.old }
    ensures ok { OnOk result (Made (OfReplica scenario.now replica) shepherd.old shepherd.new) }
    ensures size { IsSameSize shepherd.old shepherd.new }
    ensures stands { StandOn B.stands backends.old backends.new shepherd.old shepherd.new }
    ensures make { map B.make backends.new ≡ map B.make backends.old }
    ensures tries { AreSameTries shepherd.old shepherd.new }
{
    choose_replica(
        alloc,
        scenario,
        shepherd,
        &mut backends[replica as usize],
        replica,
    )
}

/// The reply of the replica with this number.
pub fn give_at<B: Backend>(alloc: Global, shepherd: &mut Shepherd, backends: &mut [B], replica: u32)
    requires known { replica ≤ 2 * shepherd.old.f }
    requires all { length backends.old ≡ 2 * shepherd.old.f + 1 }
    ensures made { Made (GiveReply shepherd.old.f replica) shepherd.old shepherd.new }
    ensures stands { StandOn B.stands backends.old backends.new shepherd.old shepherd.new }
    ensures make { map B.make backends.new ≡ map B.make backends.old }
    ensures tries { AreSameTries shepherd.old shepherd.new }
{
    give_reply(alloc, shepherd, &mut backends[replica as usize], replica);
}
