//! The laws.
ghost use Rattle.std.specs.Prelude.{List};
ghost use Rattle.hr_said.specs.declared.scenario.Scenario.{Scenario};
ghost use Rattle.hr_history.specs.History.{History};
ghost use Rattle.hr_complete.specs.Undisturbed.{IsUndisturbed};
ghost use Rattle.hr_schedule.specs.Claims.{Locking, TableRows, start, IsRun};
ghost use Rattle.hr_undisturbed.specs.Quiet.{IsQuiet, IsSmooth};

/// Where a scenario disturbs nothing, each of its runs is undisturbed: every replica is correct and never lost, and nobody is
/// suspected. So replica 0 stays the primary, nobody is convicted, and a transaction is refused only for a Deadlock that the
/// primary told, or for the primary's want of memory, and never once its commit was asked for.
pub fn runs()
    ensures undisturbed { (locking : Locking) (sc : Scenario) (h : History) (dumps : List TableRows) → IsQuiet sc → IsRun locking sc h dumps → IsUndisturbed sc.f (start locking sc) h }
    ensures smooth { (locking : Locking) (sc : Scenario) (h : History) (dumps : List TableRows) → IsQuiet sc → IsRun locking sc h dumps → IsSmooth sc.f h }
{}
