//! The worked moments.
ghost use Rattle.std.specs.Prelude.{◌≡◌, true, false, Some, None, [], ◌∷◌, length};
ghost use Rattle.hr_meaning.specs.Worked.{insert, select_v};
ghost use Rattle.hr_history.specs.declared.entry.Event.TheVariants.{Begin, Submit, AskCommit, AskRollback};
ghost use Rattle.hr_history_worked.specs.InsertAndSelect.{insert_and_select};
ghost use Rattle.hr_history_worked.specs.LyingPrimary.{lying_primary};
ghost use Rattle.hr_history_worked.specs.SuspectedPrimary.{suspected_primary};
ghost use Rattle.hr_schedule.specs.Tries.{tries_of};
ghost use Rattle.hr_schedule.specs.Scripts.{next_call_of};
ghost use Rattle.hr_schedule.specs.Choices.{is_suspect_due};
ghost use Rattle.hr_history_worked.specs.GivingWay.{rolled_back};
ghost use Rattle.hr_schedule_worked.specs.Scenarios.{after, inserting, lied_to, suspecting, two_blocks, rolls_back_first};

/// A session goes through its block, statement by statement, and waits for each reply.
pub fn block_of_two_statements()
    ensures begins { next_call_of (inserting true) 1 [] ≡ Some (Begin 1 1) }
    ensures first { next_call_of (inserting true) 1 (after 1 insert_and_select) ≡ Some (Submit 1 1 (insert 5 50)) }
    ensures waits { next_call_of (inserting true) 1 (after 2 insert_and_select) ≡ None }
    ensures second { next_call_of (inserting true) 1 (after 5 insert_and_select) ≡ Some (Submit 1 2 (select_v 5)) }
    ensures waits_again { next_call_of (inserting true) 1 (after 10 insert_and_select) ≡ None }
    ensures asks { next_call_of (inserting true) 1 (after 11 insert_and_select) ≡ Some (AskCommit 1) }
    ensures over { next_call_of (inserting true) 1 (after 17 insert_and_select) ≡ None }
    ensures no_other { next_call_of (inserting true) 2 (after 1 insert_and_select) ≡ None }
{}

/// A block that ends with ROLLBACK.
pub fn block_that_rolls_back()
    ensures waits { next_call_of (inserting false) 1 (after 10 insert_and_select) ≡ None }
    ensures rolls_back { next_call_of (inserting false) 1 (after 11 insert_and_select) ≡ Some (AskRollback 1) }
{}

/// Both transactions are refused, and each is tried again: the same block, with the next number of a transaction.
pub fn refused_and_tried_again()
    ensures asked { next_call_of (lied_to 1) 1 (after 11 lying_primary) ≡ None }
    ensures refused { next_call_of (lied_to 1) 1 (after 15 lying_primary) ≡ Some (Begin 1 3) }
    ensures other { next_call_of (lied_to 1) 2 (after 15 lying_primary) ≡ Some (Begin 2 3) }
    ensures again { next_call_of (lied_to 1) 2 (after 16 lying_primary) ≡ Some (Submit 3 1 (select_v 1)) }
    ensures next { next_call_of (lied_to 1) 1 (after 16 lying_primary) ≡ Some (Begin 1 4) }
    ensures tries { tries_of 1 1 (after 100 lying_primary) ≡ record { block = 1; number = 1; txn = 1 } ∷ record { block = 1; number = 2; txn = 4 } ∷ [] }
    ensures other_tries { tries_of 1 2 (after 100 lying_primary) ≡ record { block = 1; number = 1; txn = 2 } ∷ record { block = 1; number = 2; txn = 3 } ∷ [] }
    ensures over { next_call_of (lied_to 1) 1 (after 100 lying_primary) ≡ None }
    ensures other_over { next_call_of (lied_to 1) 2 (after 100 lying_primary) ≡ None }
{}

/// Without retries the next block comes, and there is none.
pub fn refused_without_retries()
    ensures over { next_call_of (lied_to 0) 1 (after 15 lying_primary) ≡ None }
    ensures next_block { tries_of 0 1 (after 100 lying_primary) ≡ record { block = 1; number = 1; txn = 1 } ∷ record { block = 2; number = 1; txn = 4 } ∷ [] }
{}

/// A suspicion is due from the first commit on, until it was made.
pub fn suspicion_after_one_commit()
    ensures before { is_suspect_due suspecting (after 11 suspected_primary) ≡ false }
    ensures due { is_suspect_due suspecting (after 12 suspected_primary) ≡ true }
    ensures made { is_suspect_due suspecting (after 14 suspected_primary) ≡ false }
{}

/// Behind a block that was committed comes the next one, and so behind one that was rolled back.
pub fn next_blocks()
    ensures committed { next_call_of two_blocks 1 (after 17 insert_and_select) ≡ Some (Begin 1 2) }
    ensures rolled_back { next_call_of rolls_back_first 1 (after 20 rolled_back) ≡ Some (Begin 1 4) }
{}
