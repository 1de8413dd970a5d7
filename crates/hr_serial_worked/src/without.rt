//! Without a premise.
ghost use Rattle.std.specs.Prelude.{◌≡◌, ℕ, false};
ghost use Rattle.hr_history.specs.History.{history_of};
ghost use Rattle.hr_history.specs.Faithful.{is_begun};
ghost use Rattle.hr_serial.specs.Serial.{LiarsAreAtMost, AtEachDecide, AreSerial};
ghost use Rattle.hr_serial_worked.specs.WrongAnswers.{empty_table, agreed_by, decided_by_one, AcceptsWrong};

/// With f + 1 liars of 2f + 1 replicas in place of f answers are accepted that aren't serial, though the rules are followed.
pub fn too_many_liars()
    ensures of_one { AcceptsWrong 0 }
    ensures of_three { AcceptsWrong 1 }
    ensures of_five { AcceptsWrong 2 }
{}

/// With f liars, where the rules aren't followed and one replica decides of three, answers are accepted that aren't serial.
pub fn rules_not_followed()
    ensures not_begun { is_begun 1 1 (history_of decided_by_one) ≡ false }
    ensures liars { AtEachDecide (LiarsAreAtMost 1 1 empty_table) (history_of decided_by_one) }
    ensures wrong { AreSerial empty_table (history_of decided_by_one) → ⊥ }
{}
