//! Journals: what is running, who waits, what is in doubt, and which replies are exact.
ghost use Rattle.std.specs.Prelude.{◌≡◌, [], ◌∷◌, true, false, Ok};
ghost use Rattle.hr_meaning.specs.Worked.{holding, row, select_v};
ghost use Rattle.hr_engine.specs.Journal.{Restarted};
ghost use Rattle.hr_engine.specs.Attempts.{is_running};
ghost use Rattle.hr_engine.specs.Waits.{wait};
ghost use Rattle.hr_engine.specs.Base.{base, bases, IsSoundCount};
ghost use Rattle.hr_engine.specs.Rigorous.{InOrder, Rigorous};
ghost use Rattle.hr_engine.specs.Exact.{is_told_before, IsExact, IsExactBlocked};
ghost use Rattle.hr_engine.specs.Worked.{restarted, whole, nothing};
ghost use Rattle.hr_history_worked.specs.Journals.{lost_beside_another, no_memory, told_again, doubt_behind_a_commit, key_is_there, reads_uncommitted};

/// A loss ends all that runs, also where a commit tells of it. Want of memory ends nothing.
pub fn still_running()
    ensures lost { is_running 2 lost_beside_another ≡ false }
    ensures no_memory { is_running 1 no_memory ≡ true }
{}

/// Only the last reply tells for whom a transaction waits.
pub fn told_again()
    ensures { wait 3 told_again ≡ 2 ∷ [] }
{}

/// A restart makes no commit count by a count that can't be. Without a commit in doubt it may tell no commit more.
pub fn counts_at_restarts()
    ensures another { base (holding []) (restarted 7) ≡ holding [] }
    ensures one_more { IsSoundCount 1 [] → ⊥ }
{}

/// A commit in doubt comes behind those that count.
pub fn doubt_behind_a_commit()
    ensures { bases (holding []) doubt_behind_a_commit ≡ holding (row 5 50 ∷ []) ∷ holding (row 5 50 ∷ row 6 60 ∷ []) ∷ [] }
{}

/// What runs is played on what is committed.
pub fn key_that_is_there()
    ensures { InOrder (holding []) key_is_there (2 ∷ []) }
{}

/// An answer is judged as soon as it is given.
pub fn uncommitted_row_just_read()
    ensures { Rigorous (holding []) reads_uncommitted → ⊥ }
{}

/// An exact engine tells no wait for nobody, all its commits at a restart, and of two cycles as long the first in the order of
/// a dictionary.
pub fn exact_replies()
    ensures nobody_named { IsExactBlocked nothing 1 (select_v 5) [] [] → ⊥ }
    ensures none_made { IsExact nothing (Restarted (Ok 0)) [] }
    ensures one_made_up { IsExact nothing (Restarted (Ok 1)) [] → ⊥ }
    ensures first { is_told_before whole (1 ∷ []) (2 ∷ []) ≡ true }
    ensures second { is_told_before whole (2 ∷ []) (1 ∷ []) ≡ false }
{}
