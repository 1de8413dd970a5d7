//! Worked moves. Each function does nothing; what it ensures is computed from the definitions, so a reader can hold them
//! against moves worked out by hand. That a move is the view's step, of every view, is proved one crate above.
ghost use Rattle.std.specs.Prelude.{◌≡◌, ◌+◌, true, false, Some, None, [], ◌∷◌};
ghost use Rattle.hr_rel.specs.declared.answer.Answer.TheVariants.{Count};
ghost use Rattle.hr_engine.specs.declared.reply.RunReply.TheVariants as run;
ghost use Rattle.hr_engine.specs.declared.reply.EndReply.TheVariants as end;
ghost use Rattle.hr_history.specs.declared.entry.Event.TheVariants.{Begin, Take, Give, Restarted, Decide, Suspect};
ghost use Rattle.hr_history.specs.declared.job.Job.TheVariants as job;
ghost use Rattle.hr_history.specs.declared.job.JobReply.TheVariants.{Ran, Ended};
ghost use Rattle.hr_history.specs.declared.phase.Phase.TheVariants as phase;
ghost use Rattle.hr_history.specs.declared.phase.Last.TheVariants as last;
ghost use Rattle.hr_history.specs.Processed.{txn_in, phase_in, replica_in, attempt_in, no_attempt};
ghost use Rattle.hr_history.specs.Step.{view_step};
ghost use Rattle.hr_moves.specs.Kept.{open_in, touched_in};
ghost use Rattle.hr_moves.specs.Moves.{view_after};
ghost use Rattle.hr_moves.specs.Measure.{todo_in, room_in, reserved_by};
ghost use Rattle.hr_moves.specs.Outcomes.{settle_in};
ghost use Rattle.hr_moves.specs.declared.outcome.Settled.TheVariants.{At, Wrong};
ghost use Rattle.hr_moves.specs.Worked.{busy, repeating, rolling_back, waiting};

/// The primary answers the second statement of T2: the answer is given, with the length of the log as its stamp. T3 waits
/// for T2 still, and of what replica 1 told it those are left that run there.
pub fn primary_answers()
    ensures step { view_step busy 20 0 (Give 0 (Ran (run.Done (Count 7)))) ≡ view_after busy 20 0 (Give 0 (Ran (run.Done (Count 7)))) }
    ensures given { (txn_in (view_after busy 20 0 (Give 0 (Ran (run.Done (Count 7))))) 2).given ≡ record { answer = Count 5; stamp = 1 } ∷ record { answer = Count 7; stamp = 1 } ∷ [] }
    ensures places { (attempt_in (view_after busy 20 0 (Give 0 (Ran (run.Done (Count 7))))) 0 2).places ≡ 9 ∷ 20 ∷ [] }
    ensures others { attempt_in (view_after busy 20 0 (Give 0 (Ran (run.Done (Count 7))))) 0 3 ≡ waiting (last.Blocked (2 ∷ [])) }
    ensures rested { attempt_in (view_after busy 20 0 (Give 0 (Ran (run.Done (Count 7))))) 1 3 ≡ waiting (last.Blocked (2 ∷ [])) }
{}

/// Another replica answers it: nothing is given.
pub fn secondary_answers()
    ensures step { view_step repeating 20 0 (Give 1 (Ran (run.Done (Count 7)))) ≡ view_after repeating 20 0 (Give 1 (Ran (run.Done (Count 7)))) }
    ensures given { (txn_in (view_after repeating 20 0 (Give 1 (Ran (run.Done (Count 7))))) 2).given ≡ record { answer = Count 5; stamp = 1 } ∷ [] }
{}

/// Replica 1 rolls T2 back: nothing of it is left there, and T3 waits for nobody.
pub fn roll_back()
    ensures step { view_step rolling_back 20 0 (Give 1 (Ended end.Done)) ≡ view_after rolling_back 20 0 (Give 1 (Ended end.Done)) }
    ensures ended { attempt_in (view_after rolling_back 20 0 (Give 1 (Ended end.Done))) 1 2 ≡ no_attempt }
    ensures others { attempt_in (view_after rolling_back 20 0 (Give 1 (Ended end.Done))) 1 3 ≡ waiting last.Answered }
    ensures touched { touched_in (view_after rolling_back 20 0 (Give 1 (Ended end.Done))) 1 ≡ 1 ∷ 3 ∷ [] }
{}

/// Replica 1 commits T1, or is lost at it: then the commit is in doubt, and nothing there is left to roll back. Where a run is
/// lost no commit is in doubt.
pub fn commits_and_losses()
    ensures step { view_step busy 20 0 (Give 1 (Ended end.Done)) ≡ view_after busy 20 0 (Give 1 (Ended end.Done)) }
    ensures position { (replica_in (view_after busy 20 0 (Give 1 (Ended end.Done))) 1).position ≡ 1 }
    ensures loss { view_step busy 20 0 (Give 1 (Ended end.Lost)) ≡ view_after busy 20 0 (Give 1 (Ended end.Lost)) }
    ensures doubt { (replica_in (view_after busy 20 0 (Give 1 (Ended end.Lost))) 1).doubt ≡ true }
    ensures touched { touched_in (view_after busy 20 0 (Give 1 (Ended end.Lost))) 1 ≡ [] }
    ensures primary { (view_after busy 20 0 (Give 0 (Ran run.Lost))).primary ≡ None }
    ensures no_doubt { (replica_in (view_after busy 20 0 (Give 0 (Ran run.Lost))) 0).doubt ≡ false }
{}

/// Replica 2 restarts. Where it tells one commit more than those that count, the one in doubt was made.
pub fn restarts()
    ensures made { view_step busy 20 0 (Restarted 2 1) ≡ view_after busy 20 0 (Restarted 2 1) }
    ensures counts { (replica_in (view_after busy 20 0 (Restarted 2 1)) 2).position ≡ 1 }
    ensures not_made { (replica_in (view_after busy 20 0 (Restarted 2 0)) 2).position ≡ 0 }
    ensures settled { settle_in (replica_in busy 2) 1 ≡ At 1 }
    ensures none { settle_in (replica_in busy 1) 1 ≡ Wrong }
{}

/// T4 begins, and T2 is decided: these are open then.
pub fn open_transactions()
    ensures before { open_in busy ≡ 2 ∷ 3 ∷ [] }
    ensures begun { open_in (view_after busy 20 0 (Begin 4 4)) ≡ 2 ∷ 3 ∷ 4 ∷ [] }
    ensures decided { open_in (view_after busy 20 0 (Decide 2)) ≡ 3 ∷ [] }
    ensures place { phase_in (view_after busy 20 0 (Decide 2)) 2 ≡ phase.Logged 2 }
{}

/// Two transactions are open, nobody is convicted, T2 runs at 0 and T1 and T2 at 1, and three jobs are out. A job given to
/// the primary takes room for its own entry, its reply, and what that may make.
pub fn room()
    ensures todo { todo_in busy ≡ 11 }
    ensures room { room_in busy ≡ 17 }
    ensures take { room_in (view_after repeating 20 0 (Take 0 (job.Run 2 2))) + 1 ≡ room_in repeating + reserved_by (Take 0 (job.Run 2 2)) }
    ensures suspect { room_in (view_after busy 20 0 Suspect) + 1 ≡ room_in busy + reserved_by Suspect }
{}
