//! How the primary goes, and who is the next.
ghost use Rattle.std.specs.Prelude.{◌≡◌, true, [], ◌∷◌};
ghost use Rattle.hr_rel.specs.declared.answer.Answer.TheVariants.{Count};
ghost use Rattle.hr_history.specs.History.{history_of};
ghost use Rattle.hr_history.specs.Given.{given_to};
ghost use Rattle.hr_history.specs.Faithful.{is_faithful};
ghost use Rattle.hr_history_worked.specs.Primaries.{told_too_late, suspected_again, primary_lost_in_run, primary_lost_in_commit};

/// The only live replica is the primary again; an answer to a refused transaction isn't given.
pub fn told_too_late()
    ensures faithful { is_faithful 1 3 (history_of told_too_late) ≡ true }
    ensures given { given_to 1 (history_of told_too_late) ≡ record { answer = Count 1; stamp = 0 } ∷ [] }
{}

/// A later suspicion moves the search on, and it goes round.
pub fn suspected_again()
    ensures faithful { is_faithful 1 3 (history_of suspected_again) ≡ true }
{}

/// A primary that is lost in a run.
pub fn primary_lost_in_run()
    ensures faithful { is_faithful 1 3 (history_of primary_lost_in_run) ≡ true }
{}

/// A primary that is lost in a commit.
pub fn primary_lost_in_commit()
    ensures faithful { is_faithful 1 3 (history_of primary_lost_in_commit) ≡ true }
{}
