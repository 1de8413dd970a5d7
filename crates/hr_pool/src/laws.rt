//! That the searches over what is kept miss nothing.
ghost use Rattle.std.specs.Prelude.{◌≡◌, ℕ, filter, find};
ghost use Rattle.hr_history.specs.View.{View};
ghost use Rattle.hr_history.specs.Ranks.{first_in_rank};
ghost use Rattle.hr_history.specs.Jobs.{txn_numbers, is_to_roll_back, may_repeat, may_run_first};
ghost use Rattle.hr_history.specs.Preemption.{preempted_next};
ghost use Rattle.hr_moves.specs.Sane.{IsSane};
ghost use Rattle.hr_pool.specs.Searched.{roll_back_next, run_first_next, repeat_next, preempt_next};

/// What is to be rolled back, or may run, is found among what the view keeps: the transactions that have something to roll
/// back at the replica, the log behind what is processed there, and the open ones.
pub fn jobs_are_found()
    ensures rollback { (v : View) (r : ℕ) → find (is_to_roll_back v r) (txn_numbers v) ≡ roll_back_next v r }
    ensures first { (v : View) (r : ℕ) → first_in_rank v (filter (may_run_first v r) (txn_numbers v)) ≡ run_first_next v r }
    ensures repeats { (v : View) (r : ℕ) → IsSane v → first_in_rank v (filter (may_repeat v r) (txn_numbers v)) ≡ repeat_next v r }
{}

/// Who has to give way at a replica is found among the transactions that have something to roll back there, and so are those
/// that wait for it.
pub fn preempted_are_found()
    ensures { (v : View) (r : ℕ) → IsSane v → preempted_next v r ≡ preempt_next v r }
{}
