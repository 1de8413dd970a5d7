//! The laws.
ghost use Rattle.std.specs.Prelude.{length};
ghost use Rattle.hr_said.specs.declared.scenario.Scenario.{Scenario};
ghost use Rattle.hr_history.specs.History.{History};
ghost use Rattle.hr_history.specs.Faithful.{Faithful};
ghost use Rattle.hr_schedule.specs.Choices.{Chosen};
ghost use Rattle.hr_scripted.specs.Scripted.{CallsStand};

/// In the history of a scenario's choices every call of a session was the next of its script. A try's statements are the first
/// of its block, in their order, and all of them where it is committed. No block is committed twice, and the committed ones
/// stand in the log in the order of the script.
pub fn scripted()
    ensures { (sc : Scenario) (h : History) → Faithful sc.f (length sc.scripts) h → Chosen sc h → CallsStand sc h }
{}
