//! Views of worked histories, entry by entry: by the words of the history, and by steps.
ghost use Rattle.std.specs.Prelude.{◌≡◌};
ghost use Rattle.hr_history.specs.History.{history_of};
ghost use Rattle.hr_history_worked.specs.StaleVote.{stale_vote};
ghost use Rattle.hr_history_worked.specs.LyingPrimary.{lying_primary};
ghost use Rattle.hr_history_worked.specs.LossAfterCommit.{loss_after_commit};
ghost use Rattle.hr_history_worked.specs.SuspectedPrimary.{suspected_primary};
ghost use Rattle.hr_history_worked.specs.WaitWithoutBreak.{wait_without_break};
ghost use Rattle.hr_history_worked.specs.Steps.{views_by_steps, views_by_words};

/// At each moment the view by steps is the view of the history.
pub fn views_by_steps()
    ensures stale_vote { views_by_steps 1 (history_of stale_vote) ≡ views_by_words 1 (history_of stale_vote) }
    ensures lying_primary { views_by_steps 1 (history_of lying_primary) ≡ views_by_words 1 (history_of lying_primary) }
    ensures loss_after_commit { views_by_steps 1 (history_of loss_after_commit) ≡ views_by_words 1 (history_of loss_after_commit) }
    ensures suspected_primary { views_by_steps 1 (history_of suspected_primary) ≡ views_by_words 1 (history_of suspected_primary) }
    ensures wait_without_break { views_by_steps 1 (history_of wait_without_break) ≡ views_by_words 1 (history_of wait_without_break) }
{}
