//! Without a premise.
ghost use Rattle.hr_barriers_worked.specs.WrongPrimary.{AnswersOtherwise};
ghost use Rattle.hr_barriers_worked.specs.WrongSecondary.{LiarAnswersOtherwise};
ghost use Rattle.hr_barriers_worked.specs.HonestConvicted.{ConvictsPrimary, ConvictsSecondary};

/// Where the primary lies, what a correct replica answers to the statement isn't the given answer, though the rules are
/// followed.
pub fn primary_not_correct()
    ensures { AnswersOtherwise }
{}

/// What a replica that lies answers to a statement isn't the given answer, though the primary is correct and the rules are
/// followed.
pub fn secondary_not_correct()
    ensures { LiarAnswersOtherwise }
{}

/// With 2 liars of 3 replicas a correct primary is convicted, since the others contradict it, though the rules are followed.
pub fn two_contradict()
    ensures { ConvictsPrimary }
{}

/// With 2 liars of 3 replicas a correct secondary is convicted, since its answer differs from the accepted one, though the
/// rules are followed.
pub fn two_agree()
    ensures { ConvictsSecondary }
{}
