//! A replica takes its job; the primary is suspected.
ghost use Rattle.std.specs.Prelude.{◌≡◌, ◌≤◌, ◌*◌, ℕ, length, slice_get, OnOk, OnErr};
ghost use Rattle.hr_history.specs.declared.entry.Event.TheVariants as event;
ghost use Rattle.hr_history.specs.Replicas.{journal_of};
ghost use Rattle.hr_history.specs.Transactions.{log};
ghost use Rattle.hr_ledger.specs.Chronicle.{history_in};
ghost use Rattle.hr_core.specs.Suspects as suspicions;
ghost use Rattle.hr_core.specs.Turns.{HasTurn, IsSameSize};
ghost use Rattle.hr_schedule.specs.Choices.{TakeJob, AllSuspects, is_reached};
ghost use Rattle.hr_driver.specs.Made.{Made, AreSameJournals, AreSameTries};

use hr_said::Scenario;
use hr_shepherd::Shepherd;
use std::alloc::{AllocError, Global};

/// A replica takes its job, if there is one. No journal changes by that, nor do any session's tries.
pub fn take_job(alloc: Global, shepherd: &mut Shepherd, replica: u32) -> Result<(), AllocError>
    requires known { replica ≤ 2 * shepherd.old.f }
    ensures ok { OnOk result (Made (TakeJob shepherd.old.f replica) shepherd.old shepherd.new) }
    ensures err { OnErr result (shepherd.new ≡ shepherd.old) }
    ensures size { IsSameSize shepherd.old shepherd.new }
    ensures journals { AreSameJournals shepherd.old shepherd.new }
    ensures tries { AreSameTries shepherd.old shepherd.new }
{
    match shepherd.take_job(alloc, u64::from(replica) + 1, replica) {
        Ok(_) => Ok(()),
        Err(_) => Err(AllocError),
    }
}

/// The suspicions that are due come, one after another.
pub fn suspect_all(scenario: &Scenario, shepherd: &mut Shepherd) -> Result<(), AllocError>
    requires size { shepherd.old.f ≡ scenario.now.f }
    ensures ok { OnOk result (Made (AllSuspects scenario.now) shepherd.old shepherd.new) }
    ensures size { IsSameSize shepherd.old shepherd.new }
    ensures journals { AreSameJournals shepherd.old shepherd.new }
    ensures tries { AreSameTries shepherd.old shepherd.new }
{
    'due: while is_suspect_due(scenario.suspects.as_slice(), shepherd) {
        suspect(shepherd)?;
    }
    Ok(())
}

fn is_suspect_due(suspects: &[u64], shepherd: &Shepherd) -> bool
    ensures { result ≡ is_reached (slice_get suspects.now (suspicions.suspects (history_in shepherd.now))) (length (log (history_in shepherd.now))) }
{
    match suspects.get(shepherd.suspects() as usize) {
        Some(threshold) => *threshold <= shepherd.commits(),
        None => false,
    }
}

// The root suspects the primary.
fn suspect(shepherd: &mut Shepherd) -> Result<(), AllocError>
    ensures ok { OnOk result (HasTurn 0 event.Suspect shepherd.old shepherd.new) }
    ensures err { OnErr result (shepherd.new ≡ shepherd.old) }
{
    match shepherd.suspect(0) {
        Ok(()) => Ok(()),
        Err(_) => Err(AllocError),
    }
}
