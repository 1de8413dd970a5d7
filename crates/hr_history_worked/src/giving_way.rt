//! Who is rolled back at a replica.
ghost use Rattle.std.specs.Prelude.{◌≡◌, true};
ghost use Rattle.hr_history.specs.History.{history_of};
ghost use Rattle.hr_history.specs.Faithful.{is_faithful};
ghost use Rattle.hr_history_worked.specs.GivingWay.{rolled_back, waits_for_one_that_ends, gives_way_to_an_asked_one, nobody_gives_way_at_a_convicted, cycle_that_stops, blocked_in_a_ring};

/// Sessions roll back, and replicas do before they commit.
pub fn rolled_back()
    ensures faithful { is_faithful 1 3 (history_of rolled_back) ≡ true }
{}

/// Nobody gives way who is rolled back anyway.
pub fn waits_for_one_that_ends()
    ensures faithful { is_faithful 1 3 (history_of waits_for_one_that_ends) ≡ true }
{}

/// An asked transaction makes one give way.
pub fn gives_way_to_an_asked_one()
    ensures faithful { is_faithful 1 3 (history_of gives_way_to_an_asked_one) ≡ true }
{}

/// At a convicted replica nobody gives way.
pub fn nobody_gives_way_at_a_convicted()
    ensures faithful { is_faithful 1 3 (history_of nobody_gives_way_at_a_convicted) ≡ true }
{}

/// A cycle of waits with one that gives way already needs no other.
pub fn cycle_that_stops()
    ensures faithful { is_faithful 1 3 (history_of cycle_that_stops) ≡ true }
{}

/// A wait that closes a ring of three, told as none, convicts.
pub fn blocked_in_a_ring()
    ensures faithful { is_faithful 1 3 (history_of blocked_in_a_ring) ≡ true }
{}
