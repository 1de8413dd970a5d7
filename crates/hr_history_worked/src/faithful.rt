//! Histories that follow the rules.
ghost use Rattle.std.specs.Prelude.{◌≡◌, true};
ghost use Rattle.hr_history.specs.History.{history_of};
ghost use Rattle.hr_history.specs.Faithful.{is_faithful};
ghost use Rattle.hr_history_worked.specs.InsertAndSelect.{insert_and_select};
ghost use Rattle.hr_history_worked.specs.StaleVote.{stale_vote};
ghost use Rattle.hr_history_worked.specs.LyingPrimary.{lying_primary};
ghost use Rattle.hr_history_worked.specs.DeadlockAtPrimary.{deadlock_at_primary};
ghost use Rattle.hr_history_worked.specs.DeadlockAtSecondary.{deadlock_at_secondary};
ghost use Rattle.hr_history_worked.specs.LossAfterCommit.{loss_after_commit};
ghost use Rattle.hr_history_worked.specs.WrongRestartCount.{wrong_restart_count};
ghost use Rattle.hr_history_worked.specs.SuspectedPrimary.{suspected_primary};
ghost use Rattle.hr_history_worked.specs.BlockingLiar.{blocking_liar};
ghost use Rattle.hr_history_worked.specs.WaitWithoutBreak.{wait_without_break};
ghost use Rattle.hr_history_worked.specs.BarrierCalls.{barrier_calls};
ghost use Rattle.hr_history_worked.specs.DroppedWrite.{dropped_write};
ghost use Rattle.hr_history_worked.specs.LossBeforeCommit.{loss_before_commit};

/// A session inserts a row and reads it back.
pub fn insert_and_select()
    ensures faithful { is_faithful 1 1 (history_of insert_and_select) ≡ true }
{}

/// The primary dropped a write; a vote for what it answered is stale and isn't counted, and it is convicted.
pub fn stale_vote()
    ensures faithful { is_faithful 1 2 (history_of stale_vote) ≡ true }
{}

/// The primary answers wrongly and is convicted; both sessions try again.
pub fn lying_primary()
    ensures faithful { is_faithful 1 2 (history_of lying_primary) ≡ true }
{}

/// A cycle of waits at the primary: one transaction is refused.
pub fn deadlock_at_primary()
    ensures faithful { is_faithful 1 2 (history_of deadlock_at_primary) ≡ true }
{}

/// A cycle of waits at one secondary alone: one transaction is preempted there, and both commit.
pub fn deadlock_at_secondary()
    ensures faithful { is_faithful 1 2 (history_of deadlock_at_secondary) ≡ true }
{}

/// A replica is lost in its commit, and its restart tells that it was made.
pub fn loss_after_commit()
    ensures faithful { is_faithful 1 1 (history_of loss_after_commit) ≡ true }
{}

/// A restart tells a count that can't be.
pub fn wrong_restart_count()
    ensures faithful { is_faithful 1 1 (history_of wrong_restart_count) ≡ true }
{}

/// A suspected primary: what is open is refused, and there is a new one once it has caught up.
pub fn suspected_primary()
    ensures faithful { is_faithful 1 2 (history_of suspected_primary) ≡ true }
{}

/// The primary tells a transaction to wait for nobody.
pub fn blocking_liar()
    ensures faithful { is_faithful 1 1 (history_of blocking_liar) ≡ true }
{}

/// A transaction that was rolled back and runs again isn't waited for any more.
pub fn wait_without_break()
    ensures faithful { is_faithful 1 2 (history_of wait_without_break) ≡ true }
{}

/// A statement answered after a commit waits at a replica that hasn't processed that commit.
pub fn barrier_calls()
    ensures faithful { is_faithful 1 2 (history_of barrier_calls) ≡ true }
{}

/// A secondary drops a write, and is convicted when it would have to commit an answer that wasn't accepted.
pub fn dropped_write()
    ensures faithful { is_faithful 1 1 (history_of dropped_write) ≡ true }
{}

/// A replica is lost in its commit, which it hadn't made, and runs the transaction again.
pub fn loss_before_commit()
    ensures faithful { is_faithful 1 1 (history_of loss_before_commit) ≡ true }
{}
