//! Views of worked histories, field by field.
ghost use Rattle.std.specs.Prelude.{◌≡◌, take};
ghost use Rattle.hr_history.specs.History.{history_of};
ghost use Rattle.hr_history.specs.View.{view_of};
ghost use Rattle.hr_history_worked.specs.InsertAndSelect.{insert_and_select};
ghost use Rattle.hr_history_worked.specs.StaleVote.{stale_vote};
ghost use Rattle.hr_history_worked.specs.LossAfterCommit.{loss_after_commit};
ghost use Rattle.hr_history_worked.specs.BlockingLiar.{blocking_liar};
ghost use Rattle.hr_history_worked.specs.Primaries.{primary_lost_in_run};
ghost use Rattle.hr_history_worked.specs.Views.{both_run, writer_waits, primary_contradicted, commit_lost, waits_for_nobody, run_lost};
ghost use Rattle.hr_history_worked.specs.States.{states};
ghost use Rattle.hr_history_worked.specs.StaleVoteStates.{states_of_stale_vote};

/// What the rules look at, at six moments.
pub fn views_of_worked()
    ensures both_run { view_of 1 (history_of (take 15 insert_and_select)) ≡ both_run }
    ensures writer_waits { view_of 1 (history_of (take 17 stale_vote)) ≡ writer_waits }
    ensures primary_contradicted { view_of 1 (history_of stale_vote) ≡ primary_contradicted }
    ensures commit_lost { view_of 1 (history_of (take 16 loss_after_commit)) ≡ commit_lost }
    ensures waits_for_nobody { view_of 1 (history_of (take 4 blocking_liar)) ≡ waits_for_nobody }
    ensures run_lost { view_of 1 (history_of (take 10 primary_lost_in_run)) ≡ run_lost }
{}

/// The log, what each session was told, and each replica's position, what it has processed and its next job, after each
/// turn of `stale_vote`.
pub fn states_of_worked()
    ensures stale_vote { states 1 2 (history_of stale_vote) ≡ states_of_stale_vote }
{}
