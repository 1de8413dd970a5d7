//! What is told of a run of a scenario.
ghost use Rattle.std.specs.Prelude.{IfOk, string_bytes};
ghost use Rattle.hr_runnable.specs.Runnable.{IsRunnable};
ghost use Rattle.hr_step.specs.Run.{IsExecution, IsReport, IsSummary};

use crate::run::{Ran, run};
use hr_engines::Engines;
use hr_faulty::Faulty;
use hr_generator::Order;
use hr_run_report::{report_text, tries};
use hr_said::Scenario;
use hr_schedule::laws::claims;
use hr_scripted::laws::scripted;
use hr_summary::summary_text;
use hr_undisturbed::laws::runs;
use std::alloc::{AllocError, Global};

/// Runs a scenario and reports the run, with line feeds at the ends of the report's lines. An error is want of memory.
pub fn report(alloc: Global, scenario: &Scenario) -> Result<String, AllocError>
    requires runnable { IsRunnable scenario.now }
    ensures { IfOk result (λ text. IsReport scenario.now (string_bytes text)) }
{
    let ran = executed(alloc, scenario)?;
    let tries = tries(alloc, &ran.driver.shepherd, scenario.retries)?;
    report_text(
        alloc,
        scenario.kinds.as_slice(),
        &scenario.catalog,
        &ran.driver.shepherd,
        tries.as_slice(),
        ran.dumps.as_slice(),
    )
}

/// Runs a scenario that was made by an order, and sums the run up, in lines as `report` does. An error is want of memory.
pub fn summary(alloc: Global, order: &Order, scenario: &Scenario) -> Result<String, AllocError>
    requires runnable { IsRunnable scenario.now }
    ensures { IfOk result (λ text. IsSummary order.now scenario.now (string_bytes text)) }
{
    let ran = executed(alloc, scenario)?;
    summary_text(alloc, order, &ran.driver.shepherd, ran.dumps.as_slice())
}

// A run of the two engines, each behind its script.
fn executed(alloc: Global, scenario: &Scenario) -> Result<Ran<Faulty<Engines>>, AllocError>
    requires runnable { IsRunnable scenario.now }
    ensures { IfOk result (λ ran. IsExecution scenario.now ran.driver.shepherd ran.dumps.items) }
{
    claims();
    scripted();
    runs();
    run::<Faulty<Engines>>(alloc, scenario)
}
