//! The laws.
ghost use Rattle.std.specs.Prelude.{◌≡◌, ℕ, ◌+◌, ◌*◌, ◌<◌, Bool, true, false, Some, ◌∷◌};
ghost use Rattle.hr_rel.specs.Database.{Database};
ghost use Rattle.hr_history.specs.declared.cause.CauseAt.{CauseAt};
ghost use Rattle.hr_history.specs.declared.entry.Event.TheVariants.{Refuse};
ghost use Rattle.hr_history.specs.History.{History};
ghost use Rattle.hr_history.specs.Transactions.{phase_of, is_asked};
ghost use Rattle.hr_history.specs.Replicas.{is_convicted};
ghost use Rattle.hr_history.specs.Primary.{primary_of};
ghost use Rattle.hr_history.specs.View.{view_of};
ghost use Rattle.hr_history.specs.Votes.{is_ready};
ghost use Rattle.hr_history.specs.Words.{IsReady};
ghost use Rattle.hr_history.specs.Faithful.{Begun, Faithful, Correct};
ghost use Rattle.hr_decisions.specs.Groups.{IsGroup};
ghost use Rattle.hr_complete.specs.Undisturbed.{IsUndisturbed, IsLed, IsPrimarysReply};

/// Where nothing disturbs a history, replica 0 stays the primary, and nobody is convicted.
pub fn nobody_goes()
    ensures primary { (f sessions : ℕ) (db : Database) (h : History) → Begun f sessions h → IsUndisturbed f db h → primary_of h ≡ Some 0 }
    ensures unconvicted { (f sessions r : ℕ) (db : Database) (h : History) → Begun f sessions h → IsUndisturbed f db h → is_convicted r h ≡ false }
{}

/// Where nothing disturbs a history, a transaction is refused for a Deadlock that the primary told, or for the primary's want
/// of memory, and for nothing else; and one whose commit was asked for is never refused.
pub fn refusals()
    ensures causes { (f sessions caller t : ℕ) (c : CauseAt) (db : Database) (before : History) → Begun f sessions (record { caller = caller; event = Refuse t c } ∷ before) → IsUndisturbed f db before → IsPrimarysReply c }
    ensures asked { (f sessions caller t : ℕ) (c : CauseAt) (db : Database) (before : History) → Begun f sessions (record { caller = caller; event = Refuse t c } ∷ before) → IsUndisturbed f db before
        → is_asked (phase_of t before) ≡ false }
{}

/// Where nothing disturbs a history, after each turn no transaction is left whose commit was asked for and for which f + 1
/// replicas are ready.
pub fn ready_is_decided()
    ensures { (f sessions t : ℕ) (db : Database) (h : History) → Faithful f sessions h → IsUndisturbed f db h → IsGroup f (is_ready (view_of f h) t) → is_asked (phase_of t h) ≡ false }
{}

/// Less is enough: that replica 0 is correct and was never lost, that nobody was suspected, and that at most f of the others lie.
/// Then it stays the primary, and refusals are as above. What f + 1 correct replicas are ready for is decided.
pub fn less_is_enough()
    ensures less { (f : ℕ) (db : Database) (h : History) → IsUndisturbed f db h → IsLed f db h }
    ensures primary { (f sessions : ℕ) (db : Database) (h : History) → Begun f sessions h → IsLed f db h → primary_of h ≡ Some 0 }
    ensures causes { (f sessions caller t : ℕ) (c : CauseAt) (db : Database) (before : History) → Begun f sessions (record { caller = caller; event = Refuse t c } ∷ before) → IsLed f db before → IsPrimarysReply c }
    ensures asked { (f sessions caller t : ℕ) (c : CauseAt) (db : Database) (before : History) → Begun f sessions (record { caller = caller; event = Refuse t c } ∷ before) → IsLed f db before
        → is_asked (phase_of t before) ≡ false }
    ensures decided { (f sessions t : ℕ) (db : Database) (group : ℕ → Bool) (h : History) → Faithful f sessions h → IsLed f db h → IsGroup f group → ((r : ℕ) → r < 2 * f + 1 → group r ≡ true → Correct db h r × IsReady f h t r)
        → is_asked (phase_of t h) ≡ false }
{}
