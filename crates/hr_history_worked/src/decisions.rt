//! Which transaction is decided or contradicted.
ghost use Rattle.std.specs.Prelude.{◌≡◌, true};
ghost use Rattle.hr_history.specs.History.{history_of};
ghost use Rattle.hr_history.specs.Faithful.{is_faithful};
ghost use Rattle.hr_history.specs.Words.{processed_of};
ghost use Rattle.hr_history_worked.specs.Decisions.{decided_in_the_order_of_asking, decided_before_contradicted, contradicted_in_the_order_of_asking, three_answers, convicted_vote, empty_while_two_are_lost, processed_in_log_order};

/// Two transactions may be decided at once: the one that asked first comes first.
pub fn decided_in_the_order_of_asking()
    ensures faithful { is_faithful 1 3 (history_of decided_in_the_order_of_asking) ≡ true }
{}

/// One transaction may be decided, and another is contradicted: the decision comes first, and the contradiction is none any more.
pub fn decided_before_contradicted()
    ensures faithful { is_faithful 1 3 (history_of decided_before_contradicted) ≡ true }
{}

/// Two transactions are contradicted at once: the one that asked first is refused for it.
pub fn contradicted_in_the_order_of_asking()
    ensures faithful { is_faithful 1 3 (history_of contradicted_in_the_order_of_asking) ≡ true }
{}

/// Three replicas answer in three ways, and nothing follows.
pub fn three_answers()
    ensures faithful { is_faithful 1 3 (history_of three_answers) ≡ true }
{}

/// A convicted replica has no vote.
pub fn convicted_vote()
    ensures faithful { is_faithful 1 3 (history_of convicted_vote) ≡ true }
{}

/// A lost replica has no vote, of nothing either.
pub fn empty_while_two_are_lost()
    ensures faithful { is_faithful 1 3 (history_of empty_while_two_are_lost) ≡ true }
{}

/// What is processed at a replica is counted from the first of the log on.
pub fn processed_in_log_order()
    ensures faithful { is_faithful 1 3 (history_of processed_in_log_order) ≡ true }
    ensures none { processed_of 1 (history_of processed_in_log_order) 2 ≡ 0 }
{}
