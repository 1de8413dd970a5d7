//! The laws.
ghost use Rattle.std.specs.Prelude.{◌≡◌, ℕ, List, ◌∷◌, ◌++◌};
ghost use Rattle.hr_history.specs.declared.entry.Entry.{Entry};
ghost use Rattle.hr_history.specs.History.{History, calls};
ghost use Rattle.hr_history.specs.Replicas.{stmt_at};
ghost use Rattle.hr_history.specs.Faithful.{Begun, replica_caller};
ghost use Rattle.hr_calls.specs.Callers.{AreOfOthers, AreOf, AreFollowUps, IsSamePart, IsPartWith, WasSubmitted};

/// Entries of other callers leave a replica's part as it was: the job that is out there, and its journal.
pub fn others_leave()
    ensures { (f sessions r : ℕ) (more : List Entry) (before : History) → Begun f sessions (more ++ before) → AreOfOthers (replica_caller r) more → IsSamePart r (more ++ before) before }
{}

/// So does what follows from a call, whoever made it.
pub fn follow_ups_leave()
    ensures { (f sessions r : ℕ) (more : List Entry) (before : History) → Begun f sessions (more ++ before) → AreFollowUps more → IsSamePart r (more ++ before) before }
{}

/// A replica that made no further call finds its part as it was, however the history went on.
pub fn own_calls_tell()
    ensures { (f sessions r : ℕ) (more : List Entry) (before : History) → Begun f sessions (more ++ before)
        → calls (replica_caller r) (more ++ before) ≡ calls (replica_caller r) before → IsSamePart r (more ++ before) before }
{}

/// A submitted statement keeps its number: the statement with this number is the same from then on.
pub fn statement_stays()
    ensures { (f sessions t i : ℕ) (more : List Entry) (before : History) → Begun f sessions (more ++ before) → WasSubmitted t i before → stmt_at (more ++ before) t i ≡ stmt_at before t i }
{}

/// Over a turn the history grows by entries of one caller alone, and each replica's part by what the call tells.
pub fn a_turn_adds()
    ensures callers { (f sessions : ℕ) (more : List Entry) (call : Entry) (before : History) → Begun f sessions (more ++ call ∷ before) → AreFollowUps more → AreOf call.caller more }
    ensures calls { (f sessions : ℕ) (more : List Entry) (call : Entry) (before : History) → Begun f sessions (more ++ call ∷ before) → AreFollowUps more
        → calls call.caller (more ++ call ∷ before) ≡ more ++ call ∷ calls call.caller before }
    ensures parts { (f sessions r : ℕ) (more : List Entry) (call : Entry) (before : History) → Begun f sessions (more ++ call ∷ before) → AreFollowUps more → IsPartWith r call (more ++ call ∷ before) before }
{}
