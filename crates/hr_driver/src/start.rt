//! A whole run, from nothing.
ghost use Rattle.std.specs.Prelude.{◌≡◌, ◌≤◌, None, [], length, map, replicate, IfOk};
ghost use Rattle.hr_base.specs.declared.limits.TheConstants.{MAX_F, MAX_SESSIONS};
ghost use Rattle.hr_ledger.specs.Chronicle.{history_in};
ghost use Rattle.hr_schedule.specs.Choices.{Chosen, choices};
ghost use Rattle.hr_driver.specs.Whole.{IsReady, AreAll, AreThere, StandFromNothing};

use crate::driver::Driver;
use hr_engine::Backend;
use hr_said::Scenario;
use hr_schedule::Try;
use hr_shepherd::Shepherd;
use std::alloc::{AllocError, Global};

/// Runs a scenario over these backends, one for each replica: the history is what the choices of its schedule make, and each
/// backend stands for its replica's journal.
pub fn drive<B: Backend + Drop>(
    alloc: Global,
    scenario: &Scenario,
    backends: Vec<B>,
) -> Result<Driver<B>, AllocError>
    requires wrong { scenario.now.f ≤ MAX_F }
    requires few { length scenario.now.scripts ≤ MAX_SESSIONS }
    requires all { AreAll scenario.now backends.items }
    requires known { AreThere scenario.now (choices scenario.now) }
    ensures chosen { IfOk result (λ d. Chosen scenario.now (history_in d.shepherd)) }
    ensures ready { IfOk result (λ d. IsReady scenario.now d) }
    ensures stands { IfOk result (λ d. StandFromNothing B.stands backends.items d.backends.items d.shepherd) }
    ensures make { IfOk result (λ d. map B.make d.backends.items ≡ map B.make backends.items) }
{
    let mut driver = Driver::new(alloc, scenario, backends)?;
    driver.schedule(alloc, scenario)?;
    Ok(driver)
}

impl<B: Backend + Drop> Driver<B> {
    /// A driver over these backends, before anything happened.
    pub fn new(
        alloc: Global,
        scenario: &Scenario,
        backends: Vec<B>,
    ) -> Result<Driver<B>, AllocError>
        requires wrong { scenario.now.f ≤ MAX_F }
        requires few { length scenario.now.scripts ≤ MAX_SESSIONS }
        requires all { AreAll scenario.now backends.items }
        ensures ready { IfOk result (λ d. IsReady scenario.now d) }
        ensures nothing { IfOk result (λ d. history_in d.shepherd ≡ []) }
        ensures backends { IfOk result (λ d. d.backends.items ≡ backends.items) }
    {
        let sessions = scenario.scripts.len() as u32;
        Ok(Driver {
            shepherd: Shepherd::new(alloc, scenario.f, sessions)?,
            backends,
            tries: no_tries(alloc, sessions)?,
        })
    }
}

// For so many sessions that have begun nothing.
fn no_tries(alloc: Global, sessions: u32) -> Result<Vec<Option<Try>>, AllocError>
    ensures { IfOk result (λ tries. tries.items ≡ replicate sessions None) }
{
    let mut tries = Vec::new(alloc);
    'sessions: for _ in 0..sessions {
        tries.push(None)?;
    }
    Ok(tries)
}
