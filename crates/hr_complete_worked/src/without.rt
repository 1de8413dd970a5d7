//! Without a premise, the others hold.
ghost use Rattle.hr_complete_worked.specs.NotAllCorrect.{RefusesForALie, LeavesReady};
ghost use Rattle.hr_complete_worked.specs.PrimaryLost.{RefusesForALoss};
ghost use Rattle.hr_complete_worked.specs.PrimarySuspected.{RefusesForASuspicion};

/// Where the primary lies, a transaction whose commit was asked for is refused, since the others contradict it.
pub fn primary_lies()
    ensures { RefusesForALie }
{}

/// Where another replica lies, two of three are ready for a transaction whose commit was asked for, and it stays open.
pub fn secondary_lies()
    ensures { LeavesReady }
{}

/// Where the primary is lost, a transaction whose commit was asked for is refused for that.
pub fn primary_is_lost()
    ensures { RefusesForALoss }
{}

/// Where the primary is suspected, though it is correct, a transaction whose commit was asked for is refused for that.
pub fn primary_is_suspected()
    ensures { RefusesForASuspicion }
{}
