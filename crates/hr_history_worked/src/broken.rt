//! Histories that break a rule.
ghost use Rattle.std.specs.Prelude.{◌≡◌, true, false};
ghost use Rattle.hr_history.specs.History.{history_of};
ghost use Rattle.hr_history.specs.Faithful.{is_begun, is_faithful};
ghost use Rattle.hr_history_worked.specs.Broken.{stale_vote_counted, asked_at_once, decided_by_f, decided_against_the_given, second_committed_first, taken_before_the_barrier, convicted_for_an_old_wait, made_up_cycle, refused_for_a_made_up_cycle, convicted_for_a_made_up_cycle, no_new_primary, no_preemption, decided_again, decided_by_another, second_job_taken};

/// A transaction is decided by more than f replicas that have processed the whole log and answered as was given.
pub fn decision_rules()
    ensures stale_vote_counted { is_begun 1 2 (history_of stale_vote_counted) ≡ false }
    ensures asked_at_once { is_faithful 1 2 (history_of asked_at_once) ≡ true }
    ensures decided_by_f { is_begun 1 2 (history_of decided_by_f) ≡ false }
    ensures decided_against_the_given { is_begun 1 2 (history_of decided_against_the_given) ≡ false }
{}

/// Replicas commit in the order of the log.
pub fn order_of_commits()
    ensures second_committed_first { is_begun 1 2 (history_of second_committed_first) ≡ false }
{}

/// A statement whose answer was given after m commits isn't run where these aren't processed.
pub fn barrier_kept()
    ensures taken_before_the_barrier { is_begun 1 2 (history_of taken_before_the_barrier) ≡ false }
{}

/// Nobody is convicted for a wait that was over, and a made-up cycle of waits convicts who made it up.
pub fn conviction_rules()
    ensures convicted_for_an_old_wait { is_begun 1 2 (history_of convicted_for_an_old_wait) ≡ false }
    ensures made_up_cycle { is_begun 1 2 (history_of made_up_cycle) ≡ true }
    ensures refused_for_a_made_up_cycle { is_begun 1 2 (history_of refused_for_a_made_up_cycle) ≡ false }
    ensures convicted_for_a_made_up_cycle { is_begun 1 2 (history_of convicted_for_a_made_up_cycle) ≡ true }
{}

/// What is due comes, at once, once, by the turn's caller; and a replica takes the job that is first.
pub fn nothing_more_nothing_less()
    ensures within_the_turn { is_begun 1 2 (history_of no_new_primary) ≡ true }
    ensures no_new_primary { is_faithful 1 2 (history_of no_new_primary) ≡ false }
    ensures no_preemption { is_begun 1 2 (history_of no_preemption) ≡ false }
    ensures decided_again { is_begun 1 2 (history_of decided_again) ≡ false }
    ensures decided_by_another { is_begun 1 2 (history_of decided_by_another) ≡ false }
    ensures second_job_taken { is_begun 1 2 (history_of second_job_taken) ≡ false }
{}
