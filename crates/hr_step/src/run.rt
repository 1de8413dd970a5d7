//! A run: what the schedule's choices make of the shepherd's history, and the rows that each replica has committed then.
ghost use Rattle.std.specs.Prelude.{◌≡◌, ◌+◌, ◌*◌, ℕ, [], length, slice_get, IfOk, IfSome};
ghost use Rattle.hr_ledger.specs.Chronicle.{history_in};
ghost use Rattle.hr_schedule.specs.Claims.{IsRun, start, kind_of, script_of, rows_at};
ghost use Rattle.hr_runnable.specs.Runnable.{IsRunnable};
ghost use Rattle.hr_step.specs.Run.{locking};
ghost use Rattle.hr_step.specs.Within.{IsBehind, Shows};

use crate::replica::Replica;
use hr_driver::{Driver, drive};
use hr_rel::Rows;
use hr_said::Scenario;
use std::alloc::{AllocError, Global};

/// What is left of a run.
#[derive(Drop)]
pub struct Ran<B> {
    pub driver: Driver<B>,
    /// The rows that each replica has committed, in the order of their numbers.
    pub dumps: Vec<Rows>,
}

/// Runs a scenario to the end of its schedule. An error is want of memory.
pub fn run<B: Replica>(alloc: Global, scenario: &Scenario) -> Result<Ran<B>, AllocError>
    requires runnable { IsRunnable scenario.now }
    ensures size { IfOk result (λ ran. ran.driver.shepherd.f ≡ scenario.now.f) }
    ensures sessions { IfOk result (λ ran. ran.driver.shepherd.sessions ≡ length scenario.now.scripts) }
    ensures all { IfOk result (λ ran. length ran.dumps.items ≡ 2 * scenario.now.f + 1) }
    ensures run { IfOk result (λ ran. IsRun locking scenario.now (history_in ran.driver.shepherd) ran.dumps.items) }
{
    let backends = backends::<B>(alloc, scenario)?;
    let driver = drive(alloc, scenario, backends)?;
    let dumps = dumps(alloc, driver.backends.as_slice())?;
    let _history = driver.shepherd.history();
    Ok(Ran { driver, dumps })
}

// The replicas' backends, in the order of their numbers, before anything happened.
fn backends<B: Replica>(alloc: Global, scenario: &Scenario) -> Result<Vec<B>, AllocError>
    requires runnable { IsRunnable scenario.now }
    ensures all { IfOk result (λ backends. length backends.items ≡ 2 * scenario.now.f + 1) }
    ensures stand { IfOk result (λ backends. (r : ℕ) → IfSome (slice_get backends.items r) (λ b. B.stands b (start locking scenario.now) [])) }
    ensures behind { IfOk result (λ backends. (r : ℕ) → IfSome (slice_get backends.items r)
        (λ b. IsBehind (kind_of locking scenario.now r) (script_of locking scenario.now r) (B.make b))) }
{
    let mut backends = Vec::new(alloc);
    'replicas: for replica in 0..scenario.kinds.len() {
        backends.push(B::begin(alloc, scenario, replica)?)?;
    }
    Ok(backends)
}

// The rows that each backend has committed.
fn dumps<B: Replica>(alloc: Global, backends: &[B]) -> Result<Vec<Rows>, AllocError>
    ensures all { IfOk result (λ dumps. length dumps.items ≡ length backends.now) }
    ensures shown { IfOk result (λ dumps. (r : ℕ) → IfSome (slice_get backends.now r) (λ b. Shows B.make B.stands b (rows_at dumps.items r))) }
{
    let mut dumps = Vec::new(alloc);
    'replicas: for backend in backends {
        dumps.push(backend.rows(alloc)?)?;
    }
    Ok(dumps)
}
