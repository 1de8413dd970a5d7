//! What choices make of a history, and what is claimed of rows.
ghost use Rattle.std.specs.Prelude.{◌≡◌, [], ◌∷◌, true};
ghost use Rattle.hr_meaning.specs.Worked.{holding, row};
ghost use Rattle.hr_said.specs.declared.scenario.Choice.TheVariants as choice;
ghost use Rattle.hr_history_worked.specs.InsertAndSelect.{insert_and_select};
ghost use Rattle.hr_history_worked.specs.SuspectedPrimary.{suspected_primary};
ghost use Rattle.hr_schedule.specs.Choices.{choices, AllSuspects, Round};
ghost use Rattle.hr_schedule.specs.Claims.{HoldsPrefix};
ghost use Rattle.hr_schedule_worked.specs.Scenarios.{after, inserting, suspecting, alone, alone_for_a_round};

/// Without a schedule there are 200 rounds.
pub fn no_schedule()
    ensures { choices (inserting true) ≡ choice.Rounds 200 ∷ [] }
{}

/// In a round the session's call comes first; the replica takes its job then, and replies to it.
pub fn one_round()
    ensures { Round alone (after 1 alone_for_a_round) (after 4 alone_for_a_round) }
{}

/// A suspicion that is due waits for nothing.
pub fn due_suspicion()
    ensures { AllSuspects suspecting (after 12 suspected_primary) (after 12 suspected_primary) → ⊥ }
{}

/// Without a commit in doubt a replica holds no more than it has committed.
pub fn no_more_than_committed()
    ensures { HoldsPrefix (holding []) (after 17 insert_and_select) 1 ((row 5 50 ∷ []) ∷ []) → ⊥ }
{}
