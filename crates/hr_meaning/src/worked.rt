//! Worked runs. Each function does nothing; what it ensures is computed from the definitions, so a reader can hold
//! them against runs worked out by hand.
ghost use Rattle.std.specs.Prelude.{◌≡◌, [], ◌∷◌, pos, Some, None};
ghost use Rattle.hr_rel.specs.declared.answer.Answer.TheVariants.{Rows, Count, Failed};
ghost use Rattle.hr_rel.specs.declared.answer.RunError.TheVariants.{DuplicateKey, NullRefused, Unfit};
ghost use Rattle.hr_rel.specs.Database.{empty_database};
ghost use Rattle.hr_meaning.specs.Exec.{exec};
ghost use Rattle.hr_meaning.specs.Serial.{play, database_after, database_at, serial_answers};
ghost use Rattle.hr_meaning.specs.SameAnswer.{SameAnswer};
ghost use Rattle.hr_meaning.specs.Worked.{catalog_t, holding, row, insert, select_v, one, null_key};

/// A session inserts the row (5, 50) into an empty table and reads it back.
pub fn insert_and_select()
    ensures empty { empty_database catalog_t ≡ holding [] }
    ensures inserts { (exec (holding []) (insert 5 50)).after ≡ holding (row 5 50 ∷ []) }
    ensures counts { (exec (holding []) (insert 5 50)).answer ≡ Count 1 }
    ensures reads { (exec (holding (row 5 50 ∷ [])) (select_v 5)).answer ≡ Rows (one 50 ∷ []) }
    ensures played { (play (holding []) (insert 5 50 ∷ select_v 5 ∷ [])).answers ≡ Count 1 ∷ Rows (one 50 ∷ []) ∷ [] }
    ensures left { (play (holding []) (insert 5 50 ∷ select_v 5 ∷ [])).after ≡ holding (row 5 50 ∷ []) }
{}

/// A transaction without statements answers nothing and changes nothing.
pub fn empty_commit()
    ensures played { (play (holding []) []).answers ≡ [] }
    ensures left { (play (holding []) []).after ≡ holding [] }
    ensures serial { serial_answers (holding []) ([] ∷ []) ≡ [] ∷ [] }
{}

/// A key that is there already fails the INSERT, which changes nothing; what comes after sees the old row.
pub fn duplicate_key()
    ensures fails { (exec (holding (row 1 0 ∷ [])) (insert 1 5)).answer ≡ Failed (DuplicateKey (pos 1)) }
    ensures keeps { (exec (holding (row 1 0 ∷ [])) (insert 1 5)).after ≡ holding (row 1 0 ∷ []) }
    ensures answers { (play (holding (row 1 0 ∷ [])) (insert 1 5 ∷ select_v 1 ∷ [])).answers
        ≡ Failed (DuplicateKey (pos 1)) ∷ Rows (one 0 ∷ []) ∷ [] }
{}

/// Rows stand in key order; NULL is refused at its column; a statement on a table that isn't there doesn't fit.
pub fn one_row_more()
    ensures before { (exec (holding (row 5 50 ∷ [])) (insert 3 30)).after ≡ holding (row 3 30 ∷ row 5 50 ∷ []) }
    ensures behind { (exec (holding (row 5 50 ∷ [])) (insert 7 70)).after ≡ holding (row 5 50 ∷ row 7 70 ∷ []) }
    ensures none_found { (exec (holding (row 5 50 ∷ [])) (select_v 3)).answer ≡ Rows [] }
    ensures null { (exec (holding []) null_key).answer ≡ Failed (NullRefused 1) }
    ensures unfit { (exec (empty_database record { tables = [] }) (insert 5 50)).answer ≡ Failed Unfit }
{}

/// Two transactions, one after the other: the second sees what the first left.
pub fn two_transactions()
    ensures answers { serial_answers (holding []) ((insert 5 50 ∷ []) ∷ (select_v 5 ∷ []) ∷ [])
        ≡ (Count 1 ∷ []) ∷ (Rows (one 50 ∷ []) ∷ []) ∷ [] }
    ensures first { database_at (holding []) ((insert 5 50 ∷ []) ∷ (insert 6 60 ∷ []) ∷ []) 1 ≡ holding (row 5 50 ∷ []) }
    ensures both { database_after (holding []) ((insert 5 50 ∷ []) ∷ (insert 6 60 ∷ []) ∷ []) ≡ holding (row 5 50 ∷ row 6 60 ∷ []) }
{}

/// Answers are equal with their rows in any order, but not with one row more often.
pub fn same_rows()
    ensures swapped { SameAnswer (Rows (one 1 ∷ one 2 ∷ [])) (Rows (one 2 ∷ one 1 ∷ [])) }
    ensures twice { SameAnswer (Rows (one 1 ∷ one 1 ∷ [])) (Rows (one 1 ∷ [])) → ⊥ }
    ensures other { SameAnswer (Rows []) (Count 0) → ⊥ }
{}
