//! The law.
ghost use Rattle.std.specs.Prelude.{◌≡◌, Ok};
ghost use Rattle.hr_base.specs.Texts.{Text};
ghost use Rattle.hr_said.specs.declared.scenario.Scenario.{Scenario};
ghost use Rattle.hr_reader.specs.Reading.{scenario_of};
ghost use Rattle.hr_runnable.specs.Runnable.{IsRunnable};

/// A scenario that some text is holds together: whatever its lines say, it can be run.
pub fn runnable()
    ensures { (text : Text) (sc : Scenario) → scenario_of text ≡ Ok sc → IsRunnable sc }
{}
