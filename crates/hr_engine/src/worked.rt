//! Worked journals. Each function does nothing; what it ensures is computed from the definitions, so a reader can hold
//! them against journals worked out by hand.
ghost use Rattle.std.specs.Prelude.{◌≡◌, [], ◌∷◌, true, false, Some, None, Err};
ghost use Rattle.hr_meaning.specs.Worked.{holding, row, select_v};
ghost use Rattle.hr_engine.specs.Attempts.{is_running};
ghost use Rattle.hr_rel.specs.declared.answer.Answer.TheVariants.{Rows};
ghost use Rattle.hr_engine.specs.declared.reply.Lost.{Lost};
ghost use Rattle.hr_engine.specs.declared.reply.RunReply.TheVariants as run;
ghost use Rattle.hr_engine.specs.declared.reply.EndReply.TheVariants as end;
ghost use Rattle.hr_engine.specs.Journal.{Ran, Committed, RolledBack, Restarted};
ghost use Rattle.hr_engine.specs.Waits.{wait, standing, is_list_of_running, is_sound_deadlock};
ghost use Rattle.hr_engine.specs.Base.{base, bases, count};
ghost use Rattle.hr_engine.specs.Rigorous.{IsSound, Rigorous};
ghost use Rattle.hr_engine.specs.Exact.{closes, AreHolders, IsExactBlocked, IsExactDeadlock, IsExactRun};
ghost use Rattle.hr_engine.specs.Worked.{two_open, read_uncommitted, cycle_blocked, runs_again, in_doubt, restarted, in_order, inserts, waits_for, committed, rolled_back, restarted_within, lost_within, closes_cycle, waiting, in_doubt_longer, commit_after, lost_again, deadlocked, deadlock_made_up, two_wait, each_waits, whole, nothing};

/// Two transactions are open at once, and what they were answered doesn't depend on their order.
pub fn two_attempts_open()
    ensures first { is_running 1 two_open ≡ true }
    ensures second { is_running 2 two_open ≡ true }
    ensures rigorous { Rigorous (holding (row 1 10 ∷ [])) two_open }
{}

/// A reader saw a row that its writer then rolled back.
pub fn uncommitted_row_read()
    ensures { Rigorous (holding []) read_uncommitted → ⊥ }
{}

/// Two transactions wait for each other, and the second was answered Blocked in place of Deadlock.
pub fn cycle_of_waits_blocked()
    ensures first { wait 1 cycle_blocked ≡ 2 ∷ [] }
    ensures second { wait 2 cycle_blocked ≡ 1 ∷ [] }
    ensures not_rigorous { Rigorous (holding []) cycle_blocked → ⊥ }
{}

/// A wait is over once the transaction waited for has stopped, also where it runs again.
pub fn wait_without_break()
    ensures runs { is_running 1 runs_again ≡ true }
    ensures waits_no_more { wait 2 runs_again ≡ [] }
{}

/// A commit is in doubt: the database is that before it or that after it, and the restart may tell either.
pub fn commit_in_doubt()
    ensures doubt { bases (holding []) in_doubt ≡ holding [] ∷ holding (row 5 50 ∷ []) ∷ [] }

    ensures not_made { Rigorous (holding []) (restarted 0) }
    ensures base_without { base (holding []) (restarted 0) ≡ holding [] }

    ensures made { Rigorous (holding []) (restarted 1) }
    ensures base_with { base (holding []) (restarted 1) ≡ holding (row 5 50 ∷ []) }
{}

/// A restart told a count that is neither.
pub fn wrong_restart_count()
    ensures { Rigorous (holding []) (restarted 2) → ⊥ }
{}

/// A commit ends its transaction, counts, and leaves what its statements did.
pub fn commit_that_counts()
    ensures ended { is_running 1 committed ≡ false }
    ensures counts { count committed ≡ 1 }
    ensures base { base (holding []) committed ≡ holding (row 5 50 ∷ []) }
{}

/// A rollback ends its transaction, and leaves nothing of it.
pub fn rollback_that_leaves_nothing()
    ensures ended { is_running 1 rolled_back ≡ false }
    ensures counts { count rolled_back ≡ 0 }
    ensures base { base (holding []) rolled_back ≡ holding [] }
{}

/// Neither a restart nor a loss leaves anything running.
pub fn nothing_runs_on()
    ensures restarted { is_running 1 restarted_within ≡ false }
    ensures lost { is_running 1 lost_within ≡ false }
{}

/// A commit is in doubt where the loss begins at it, and as long as the loss lasts.
pub fn doubt_that_lasts()
    ensures lasts { (why : Lost) → bases (holding []) (in_doubt_longer why) ≡ holding [] ∷ holding (row 5 50 ∷ []) ∷ [] }
    ensures not_made { bases (holding []) (restarted 0) ≡ holding [] ∷ [] }
    ensures made { bases (holding []) (restarted 1) ≡ holding (row 5 50 ∷ []) ∷ [] }
    ensures next_loss { bases (holding []) lost_again ≡ holding [] ∷ holding (row 5 50 ∷ []) ∷ [] }
{}

/// A commit isn't in doubt where the loss began before it.
pub fn commit_within_a_loss()
    ensures run { bases (holding []) (commit_after (Ran 1 (select_v 5) run.Lost)) ≡ holding [] ∷ [] }
    ensures rollback { bases (holding []) (commit_after (RolledBack 1 end.Lost)) ≡ holding [] ∷ [] }
    ensures restart { (why : Lost) → bases (holding []) (commit_after (Restarted (Err why))) ≡ holding [] ∷ [] }
{}

/// A wait is over once the transaction that waits is answered otherwise, or ends.
pub fn wait_that_ends()
    ensures waits { wait 2 (waiting []) ≡ 1 ∷ [] }
    ensures ran_on { wait 2 (waiting (inserts 2 7 70 ∷ [])) ≡ [] }
    ensures told_otherwise { wait 2 (waiting (closes_cycle 2 5 1 ∷ [])) ≡ [] }
    ensures committed { wait 2 (waiting (Committed 2 end.Done ∷ [])) ≡ [] }
    ensures rolled_back { wait 2 (waiting (RolledBack 2 end.Done ∷ [])) ≡ [] }
{}

/// A Blocked reply names some, in ascending order, not the asker, and none that doesn't run.
pub fn lists_of_blocked()
    ensures both { is_list_of_running (λ t. is_running t two_open) 3 (1 ∷ 2 ∷ []) ≡ true }
    ensures nobody { is_list_of_running (λ t. is_running t two_open) 3 [] ≡ false }
    ensures descending { is_list_of_running (λ t. is_running t two_open) 3 (2 ∷ 1 ∷ []) ≡ false }
    ensures asker { is_list_of_running (λ t. is_running t two_open) 2 (1 ∷ 2 ∷ []) ≡ false }
    ensures idle { is_list_of_running (λ t. is_running t two_open) 3 (1 ∷ 4 ∷ []) ≡ false }
{}

/// A Deadlock reply stands until a member of its cycle stops, also where that one runs again, or until its asker runs on.
pub fn deadlock_that_stands()
    ensures stands { standing 2 (deadlocked []) ≡ Some (2 ∷ 1 ∷ []) }
    ensures broken { standing 2 (deadlocked (RolledBack 1 end.Done ∷ inserts 1 5 50 ∷ [])) ≡ None }
    ensures ran_on { standing 2 (deadlocked (inserts 2 7 70 ∷ [])) ≡ None }
{}

/// A Deadlock reply is sound where each of its cycle waits for the next, and not where one doesn't.
pub fn cycles_of_waits()
    ensures sound { IsSound (closes_cycle 2 5 1) (in_order (inserts 1 5 50 ∷ inserts 2 6 60 ∷ waits_for 1 6 2 ∷ [])) }
    ensures made_up { Rigorous (holding []) deadlock_made_up → ⊥ }
{}

/// A Deadlock reply begins with the asker, has others, all of them running and none twice, and each waits for the next.
pub fn lists_of_deadlock()
    ensures two { is_sound_deadlock (λ t. true) each_waits 2 (2 ∷ 1 ∷ []) ≡ true }
    ensures three { is_sound_deadlock (λ t. true) each_waits 2 (2 ∷ 3 ∷ 1 ∷ []) ≡ true }
    ensures nobody { is_sound_deadlock (λ t. true) each_waits 2 [] ≡ false }
    ensures alone { is_sound_deadlock (λ t. true) each_waits 2 (2 ∷ []) ≡ false }
    ensures other_first { is_sound_deadlock (λ t. true) each_waits 2 (1 ∷ 2 ∷ []) ≡ false }
    ensures twice { is_sound_deadlock (λ t. true) each_waits 2 (2 ∷ 1 ∷ 1 ∷ []) ≡ false }
    ensures idle { is_sound_deadlock (λ t. false) each_waits 2 (2 ∷ 1 ∷ []) ≡ false }
    ensures no_wait { is_sound_deadlock (λ t. true) (λ t. []) 2 (2 ∷ 1 ∷ []) ≡ false }
{}

/// A cycle closes along a path whose first is in the asker's way, and of two that close the shorter is told.
pub fn exact_deadlocks()
    ensures direct { closes whole 3 (select_v 5) two_wait (1 ∷ []) ≡ true }
    ensures longer { closes whole 3 (select_v 5) two_wait (2 ∷ 1 ∷ []) ≡ true }
    ensures not_in_the_way { closes nothing 3 (select_v 5) two_wait (1 ∷ []) ≡ false }
    ensures waits_for_other { closes whole 3 (select_v 5) two_wait (2 ∷ []) ≡ false }
    ensures longer_not_told { IsExactDeadlock whole 3 (select_v 5) two_wait (2 ∷ 1 ∷ []) → ⊥ }
    ensures not_closed { IsExactDeadlock nothing 3 (select_v 5) two_wait (1 ∷ []) → ⊥ }
    ensures asker_first { IsExactRun whole 3 (select_v 5) two_wait (run.Deadlock (1 ∷ 3 ∷ [])) → ⊥ }
{}

/// A run isn't answered Blocked where a cycle closes or where it leaves out one that is in the way, nor Done where anything is.
pub fn exact_runs()
    ensures cycle_closes { IsExactBlocked whole 3 (select_v 5) two_wait (1 ∷ 2 ∷ []) → ⊥ }
    ensures one_left_out { AreHolders whole 4 (select_v 5) two_wait (1 ∷ 2 ∷ []) → ⊥ }
    ensures one_made_up { AreHolders nothing 4 (select_v 5) two_wait (1 ∷ []) → ⊥ }
    ensures asker_named { AreHolders whole 3 (select_v 5) two_wait (1 ∷ 2 ∷ 3 ∷ []) → ⊥ }
    ensures not_done { IsExactRun whole 4 (select_v 5) two_wait (run.Done (Rows [])) → ⊥ }
    ensures never_lost { IsExactRun whole 4 (select_v 5) two_wait run.Lost → ⊥ }
{}
