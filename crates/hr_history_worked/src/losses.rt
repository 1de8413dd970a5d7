//! Want of memory, and restarts.
ghost use Rattle.std.specs.Prelude.{◌≡◌, true};
ghost use Rattle.hr_history.specs.History.{history_of};
ghost use Rattle.hr_history.specs.Faithful.{is_faithful};
ghost use Rattle.hr_history_worked.specs.Losses.{memory_wanting, restart_tells_one_more, restart_tells_one_less};

/// Want of memory, at the primary and at another.
pub fn memory_wanting()
    ensures faithful { is_faithful 1 3 (history_of memory_wanting) ≡ true }
{}

/// A count of one more than is committed, with no commit in doubt.
pub fn restart_tells_one_more()
    ensures faithful { is_faithful 1 3 (history_of restart_tells_one_more) ≡ true }
{}

/// A count of one less than is committed.
pub fn restart_tells_one_less()
    ensures faithful { is_faithful 1 3 (history_of restart_tells_one_less) ≡ true }
{}
