//! One replica, and five.
ghost use Rattle.std.specs.Prelude.{◌≡◌, true};
ghost use Rattle.hr_history.specs.History.{history_of};
ghost use Rattle.hr_history.specs.Faithful.{is_faithful};
ghost use Rattle.hr_history_worked.specs.OtherSizes.{one_replica, five_replicas};

/// One replica decides alone, and is its own candidate.
pub fn one_replica()
    ensures faithful { is_faithful 0 2 (history_of one_replica) ≡ true }
{}

/// Five replicas, two of which answer otherwise.
pub fn five_replicas()
    ensures faithful { is_faithful 2 1 (history_of five_replicas) ≡ true }
{}
