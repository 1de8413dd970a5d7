//! The laws.
ghost use Rattle.std.specs.Prelude.{◌≡◌, ℕ, ◌+◌, ◌<◌, ◌≤◌, Bool, true, Some, List, ◌∷◌, ◌++◌, length, count_by, IsTrue};
ghost use Rattle.hr_history.specs.declared.entry.Entry.{Entry};
ghost use Rattle.hr_history.specs.declared.entry.Event.TheVariants.{Decide};
ghost use Rattle.hr_history.specs.History.{History};
ghost use Rattle.hr_history.specs.ReplicaNumbers.{replica_numbers};
ghost use Rattle.hr_history.specs.View.{View};
ghost use Rattle.hr_history.specs.Votes.{agrees, contradicts};
ghost use Rattle.hr_history.specs.Processed.{answers_in};
ghost use Rattle.hr_history.specs.Words.{IsDecidable, IsContradicted};
ghost use Rattle.hr_history.specs.Faithful.{Begun, Faithful};
ghost use Rattle.hr_decisions.specs.Order.{WasDecided, HasNotBegun, IsLater, AreOf};
ghost use Rattle.hr_decisions.specs.Groups.{IsGroup, ShareAMember};

/// A transaction is decided only where it may be: its commit was asked for, and f + 1 ready replicas have the given answers.
pub fn decided_where_decidable()
    ensures { (f sessions caller t : ℕ) (before : History) → Begun f sessions (record { caller = caller; event = Decide t } ∷ before) → IsDecidable f before t }
{}

/// After each turn no transaction is left that may be decided, and none whose given answers are contradicted.
pub fn none_left_after_a_turn()
    ensures decidable { (f sessions t : ℕ) (h : History) → Faithful f sessions h → IsDecidable f h t → ⊥ }
    ensures contradicted { (f sessions t : ℕ) (h : History) → Faithful f sessions h → IsContradicted f h t → ⊥ }
{}

/// Where f + 1 ready replicas agree on other answers than the given ones, no f + 1 agree on the given ones; and all groups
/// that agree on others agree on the same.
pub fn one_group()
    ensures excludes { (v : View) (t r : ℕ) → IsTrue (contradicts v t r) → IsGroup v.f (agrees v t) → ⊥ }
    ensures one { (v : View) (t r s : ℕ) → IsTrue (contradicts v t r) → IsTrue (contradicts v t s) → answers_in v r t ≡ answers_in v s t }
{}

/// Of 2f + 1 replicas, two groups of f + 1 share a member.
pub fn two_groups()
    ensures { (f : ℕ) (group other : ℕ → Bool) → IsGroup f group → IsGroup f other → ShareAMember f group other }
{}

/// A transaction that begins after another was decided has a later place in the log, if it gets one; and the other keeps
/// its place.
pub fn later_in_the_log()
    ensures { (f sessions t u place : ℕ) (more : List Entry) (before : History) → Begun f sessions (more ++ before) → WasDecided u place before → HasNotBegun t before
        → WasDecided u place (more ++ before) × IsLater t place (more ++ before) }
{}

/// A session's decided transactions stand in the log in the order in which it began them.
pub fn in_order_of_a_session()
    ensures { (f sessions session t u place : ℕ) (h : History) → Begun f sessions h → AreOf session t u h → t < u → WasDecided t place h → IsLater u place h }
{}
