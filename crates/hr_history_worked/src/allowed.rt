//! Calls that aren't allowed.
ghost use Rattle.std.specs.Prelude.{◌≡◌, true, false};
ghost use Rattle.hr_history.specs.History.{history_of};
ghost use Rattle.hr_history.specs.Faithful.{is_begun};
ghost use Rattle.hr_history_worked.specs.NotAllowed.{begun_while_open, begun_with_a_later_number, begun_by_another, begun_by_session_0, begun_by_session_3, submitted_to_anothers, submitted_to_an_ended_one, submitted_with_a_later_number, submitted_while_waiting, asked_while_waiting, rolled_back_while_waiting, taken_by_another, taken_with_another_index, taken_while_one_is_out, taken_by_a_convicted, rolled_back_untouched, run_ended, answered_unasked, answered_unsorted, answered_sorted, restarted_untold};

/// A session of the history's begins, by its own caller, with the next number, while it has no open transaction.
pub fn begins()
    ensures begun_while_open { is_begun 1 2 (history_of begun_while_open) ≡ false }
    ensures begun_with_a_later_number { is_begun 1 2 (history_of begun_with_a_later_number) ≡ false }
    ensures begun_by_another { is_begun 1 2 (history_of begun_by_another) ≡ false }
    ensures begun_by_session_0 { is_begun 1 2 (history_of begun_by_session_0) ≡ false }
    ensures begun_by_session_3 { is_begun 1 2 (history_of begun_by_session_3) ≡ false }
{}

/// A session goes on with its own open transaction, once it has its answer; statements are numbered one by one.
pub fn goes_on()
    ensures submitted_to_anothers { is_begun 1 2 (history_of submitted_to_anothers) ≡ false }
    ensures submitted_to_an_ended_one { is_begun 1 2 (history_of submitted_to_an_ended_one) ≡ false }
    ensures submitted_with_a_later_number { is_begun 1 2 (history_of submitted_with_a_later_number) ≡ false }
    ensures submitted_while_waiting { is_begun 1 2 (history_of submitted_while_waiting) ≡ false }
    ensures asked_while_waiting { is_begun 1 2 (history_of asked_while_waiting) ≡ false }
    ensures rolled_back_while_waiting { is_begun 1 2 (history_of rolled_back_while_waiting) ≡ false }
{}

/// A replica takes its own first job, one at a time, and none once it is convicted.
pub fn takes()
    ensures taken_by_another { is_begun 1 2 (history_of taken_by_another) ≡ false }
    ensures taken_with_another_index { is_begun 1 2 (history_of taken_with_another_index) ≡ false }
    ensures taken_while_one_is_out { is_begun 1 2 (history_of taken_while_one_is_out) ≡ false }
    ensures taken_by_a_convicted { is_begun 1 2 (history_of taken_by_a_convicted) ≡ false }
    ensures rolled_back_untouched { is_begun 1 2 (history_of rolled_back_untouched) ≡ false }
{}

/// A reply is of the kind of the job that is out; rows are sorted.
pub fn replies()
    ensures run_ended { is_begun 1 2 (history_of run_ended) ≡ false }
    ensures answered_unasked { is_begun 1 2 (history_of answered_unasked) ≡ false }
    ensures answered_unsorted { is_begun 1 2 (history_of answered_unsorted) ≡ false }
    ensures answered_sorted { is_begun 1 2 (history_of answered_sorted) ≡ true }
    ensures restarted_untold { is_begun 1 2 (history_of restarted_untold) ≡ false }
{}
