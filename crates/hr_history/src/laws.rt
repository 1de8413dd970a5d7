//! Laws of histories that say more than their definitions: what is stored and what is read, the view's step, turns, and
//! that the tests that compute are the plain words.
//!
//! A history is read from its latest entry back, so what one more entry makes of each word holds by the word's definition;
//! with `one_more_entry` it holds of the list that is stored.
ghost use Rattle.std.specs.Prelude.{◌≡◌, ℕ, List, [], ◌∷◌, ◌++◌, length, ◌↔◌, IsTrue};
ghost use Rattle.hr_rel.specs.declared.answer.Answer.{Answer};
ghost use Rattle.hr_meaning.specs.SameAnswer.{SameAnswer};
ghost use Rattle.hr_answer.specs.Canonical.{IsCanonical};
ghost use Rattle.hr_engine.specs.Journal.{Journal};
ghost use Rattle.hr_engine.specs.Base.{IsSoundCount};
ghost use Rattle.hr_engine.specs.Waits.{IsSoundBlocked};
ghost use Rattle.hr_history.specs.declared.entry.Entry.{Entry};
ghost use Rattle.hr_history.specs.History.{History, history_of};
ghost use Rattle.hr_history.specs.Transactions.{asks};
ghost use Rattle.hr_history.specs.Turn.{is_sound_count};
ghost use Rattle.hr_history.specs.SameAnswers.{same_answer, is_canonical};
ghost use Rattle.hr_history.specs.Faithful.{Begun, Faithful};
ghost use Rattle.hr_history.specs.Turns.{IsMadeOfTurns};
ghost use Rattle.hr_history.specs.View.{View, view_of};
ghost use Rattle.hr_history.specs.Processed.{replica_in, runs_in, wait_in};
ghost use Rattle.hr_history.specs.Evidence.{is_sound_blocked};
ghost use Rattle.hr_history.specs.Step.{view_step};

/// What is stored with one more entry at its end is the history with one more entry.
pub fn one_more_entry()
    ensures { (entries : List Entry) (e : Entry) → history_of (entries ++ e ∷ []) ≡ e ∷ history_of entries }
{}

/// A restart's count is no evidence exactly where it is one that a rigorous journal may have.
pub fn sound_counts()
    ensures { (told : ℕ) (j : Journal) → IsTrue (is_sound_count told j) ↔ IsSoundCount told j }
{}

/// Answers count as the same exactly where they are one and the same.
pub fn equal_answers()
    ensures { (a b : Answer) → IsTrue (same_answer a b) ↔ (a ≡ b) }
{}

/// An answer passes the test of canonical ones exactly where its rows, if it has some, are sorted. Canonical answers count
/// as the same exactly where they are equal: the same count, the same failure, or the same rows as often, in any order.
pub fn canonical_answers()
    ensures test { (a : Answer) → IsTrue (is_canonical a) ↔ IsCanonical a }
    ensures same { (a b : Answer) → IsCanonical a → IsCanonical b → IsTrue (same_answer a b) ↔ SameAnswer a b }
{}

/// The view of a history that has begun rightly is, with one more entry, the step of the view before it.
pub fn view_steps()
    ensures view { (f sessions : ℕ) (e : Entry) (before : History) → Begun f sessions (e ∷ before) → view_of f (e ∷ before) ≡ view_step (view_of f before) (length before) (asks before) e.event }
    ensures stored { (f sessions : ℕ) (entries : List Entry) (e : Entry) → Begun f sessions (history_of (entries ++ e ∷ []))
        → view_of f (history_of (entries ++ e ∷ [])) ≡ view_step (view_of f (history_of entries)) (length entries) (asks (history_of entries)) e.event }
{}

/// A history is faithful exactly where it is made of turns: each an allowed call, and then what is due, again and again,
/// until nothing is.
pub fn turns()
    ensures { (f sessions : ℕ) (h : History) → Faithful f sessions h ↔ IsMadeOfTurns f sessions h }
{}

/// A Blocked reply passes the test of evidence exactly where it is one that a rigorous journal may have: it names some
/// others that run, in ascending order, and no chain of waits leads from one of them to the asker.
pub fn blocked_replies()
    ensures { (v : View) (r asker : ℕ) (named : List ℕ) → IsTrue (is_sound_blocked (runs_in v r) (wait_in v r) (length (replica_in v r).attempts) asker named) ↔ IsSoundBlocked (runs_in v r) (wait_in v r) asker named }
{}
