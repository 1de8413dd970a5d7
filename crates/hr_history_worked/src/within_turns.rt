//! Jobs and preemptions within a turn, where what is due isn't done yet. Once it is, other rules come first.
ghost use Rattle.std.specs.Prelude.{◌≡◌, true, None, take};
ghost use Rattle.hr_history.specs.History.{history_of};
ghost use Rattle.hr_history.specs.Words.{job, preempted_next};
ghost use Rattle.hr_history.specs.Faithful.{is_begun};
ghost use Rattle.hr_history_worked.specs.WithinTurns.{behind_the_barrier};
ghost use Rattle.hr_history_worked.specs.DeadlockAtPrimary.{deadlock_at_primary};
ghost use Rattle.hr_history_worked.specs.DeadlockAtSecondary.{deadlock_at_secondary};
ghost use Rattle.hr_history_worked.specs.DroppedWrite.{dropped_write};

/// A statement waits behind the barrier, and one that closed a cycle of waits while that stands; and answers that aren't
/// the accepted ones aren't committed.
pub fn no_job()
    ensures begun { is_begun 1 2 (history_of behind_the_barrier) ≡ true }
    ensures behind_the_barrier { job 1 (history_of behind_the_barrier) 2 ≡ None }
    ensures in_a_cycle { job 1 (history_of (take 22 deadlock_at_secondary)) 1 ≡ None }
    ensures answered_otherwise { job 1 (history_of (take 17 dropped_write)) 2 ≡ None }
{}

/// Nobody is preempted at the primary.
pub fn no_preemption()
    ensures at_the_primary { preempted_next 1 (history_of (take 14 deadlock_at_primary)) 0 ≡ None }
{}
