//! What follows tells exactly what it is about.
ghost use Rattle.std.specs.Prelude.{◌≡◌, false};
ghost use Rattle.hr_history.specs.History.{history_of};
ghost use Rattle.hr_history.specs.Faithful.{is_begun};
ghost use Rattle.hr_history_worked.specs.WrongDetails.{decided_another, refused_another, refused_for_another_primary, refused_for_another_why, refused_for_another_suspicion, refused_for_another_reply, refused_for_another_statement, refused_for_another_replica, refused_for_another_answer, convicted_for_another_contradiction, convicted_another, convicted_for_another_answer, convicted_for_another_wait, convicted_for_another_count, another_primary, preempted_another, preempted_elsewhere, committed_another, rolled_back_another};

/// A decision or refusal of another transaction, or for another cause, isn't the one that is due.
pub fn decisions_and_refusals()
    ensures decided_another { is_begun 1 1 (history_of decided_another) ≡ false }
    ensures refused_another { is_begun 1 2 (history_of refused_another) ≡ false }
    ensures refused_for_another_primary { is_begun 1 2 (history_of refused_for_another_primary) ≡ false }
    ensures refused_for_another_why { is_begun 1 2 (history_of refused_for_another_why) ≡ false }
    ensures refused_for_another_suspicion { is_begun 1 2 (history_of refused_for_another_suspicion) ≡ false }
    ensures refused_for_another_reply { is_begun 1 2 (history_of refused_for_another_reply) ≡ false }
    ensures refused_for_another_statement { is_begun 1 2 (history_of refused_for_another_statement) ≡ false }
    ensures refused_for_another_replica { is_begun 1 2 (history_of refused_for_another_replica) ≡ false }
    ensures refused_for_another_answer { is_begun 1 2 (history_of refused_for_another_answer) ≡ false }
{}

/// A conviction of another replica, or for other evidence.
pub fn convictions()
    ensures convicted_for_another_contradiction { is_begun 1 2 (history_of convicted_for_another_contradiction) ≡ false }
    ensures convicted_another { is_begun 1 1 (history_of convicted_another) ≡ false }
    ensures convicted_for_another_answer { is_begun 1 1 (history_of convicted_for_another_answer) ≡ false }
    ensures convicted_for_another_wait { is_begun 1 1 (history_of convicted_for_another_wait) ≡ false }
    ensures convicted_for_another_count { is_begun 1 1 (history_of convicted_for_another_count) ≡ false }
{}

/// Another primary, or another preemption.
pub fn primaries_and_preemptions()
    ensures another_primary { is_begun 1 2 (history_of another_primary) ≡ false }
    ensures preempted_another { is_begun 1 2 (history_of preempted_another) ≡ false }
    ensures preempted_elsewhere { is_begun 1 2 (history_of preempted_elsewhere) ≡ false }
{}

/// The job of another transaction.
pub fn jobs()
    ensures committed_another { is_begun 1 1 (history_of committed_another) ≡ false }
    ensures rolled_back_another { is_begun 1 2 (history_of rolled_back_another) ≡ false }
{}
