//! The laws.
ghost use Rattle.std.specs.Prelude.{◌≡◌, ℕ, Bool, true, false, List, ◌∷◌, ◌++◌, length};
ghost use Rattle.hr_rel.specs.declared.answer.Answer.{Answer};
ghost use Rattle.hr_engine.specs.declared.reply.RunReply.TheVariants.{Done};
ghost use Rattle.hr_history.specs.declared.cause.CauseAt.{CauseAt};
ghost use Rattle.hr_history.specs.declared.cause.CauseAt.TheVariants as cause;
ghost use Rattle.hr_history.specs.declared.cause.Why.{Why};
ghost use Rattle.hr_history.specs.declared.entry.Entry.{Entry};
ghost use Rattle.hr_history.specs.declared.entry.Event.TheVariants.{Give, Refuse};
ghost use Rattle.hr_history.specs.declared.job.JobReply.TheVariants.{Ran};
ghost use Rattle.hr_history.specs.History.{History};
ghost use Rattle.hr_history.specs.Transactions.{begun, phase_of, is_open};
ghost use Rattle.hr_history.specs.Turn.{turn_of};
ghost use Rattle.hr_history.specs.View.{view_of};
ghost use Rattle.hr_history.specs.Faithful.{Begun, Faithful};
ghost use Rattle.hr_records.specs.ByRule.{HasCause};
ghost use Rattle.hr_records.specs.Numbers.{IsBorn};
ghost use Rattle.hr_calls.specs.Callers.{AreFollowUps};
ghost use Rattle.hr_causes.specs.Causes.{IsShownDeadlock, IsShownMemory, IsShownChange, IsShownDifference, is_no_reply};
ghost use Rattle.hr_causes.specs.Endings.{ends};

/// A refusal for a Deadlock names the turn's call, by which the primary told of a cycle of waits. That is no evidence against
/// it: the cycle is one of waits that are recorded there.
pub fn deadlock()
    ensures { (f sessions caller t at : ℕ) (before : History) → Begun f sessions (record { caller = caller; event = Refuse t (cause.Deadlock at) } ∷ before) → IsShownDeadlock t at before }
{}

/// A refusal for want of memory names the turn's call, by which the primary told that it had none for the statement.
pub fn primary_memory()
    ensures { (f sessions caller t at : ℕ) (before : History) → Begun f sessions (record { caller = caller; event = Refuse t (cause.PrimaryMemory at) } ∷ before) → IsShownMemory t at before }
{}

/// A refusal because the primary went names the entry by which it did, in this turn, and why.
pub fn primary_changed()
    ensures { (f sessions caller t from at : ℕ) (because : Why) (before : History) → Begun f sessions (record { caller = caller; event = Refuse t (cause.PrimaryChanged from because at) } ∷ before)
        → IsShownChange from because at before }
{}

/// A refusal for the votes names an answer of a replica, by its place, and it is the first that isn't the one given.
pub fn difference()
    ensures { (f sessions caller t index by at : ℕ) (before : History) → Begun f sessions (record { caller = caller; event = Refuse t (cause.Differ index by at) } ∷ before) → IsShownDifference t index by at before }
{}

/// After each turn no transaction is open that has a cause to be refused: the cause brings the refusal.
pub fn causes_refuse()
    ensures { (f sessions t : ℕ) (c : CauseAt) (h : History) → Faithful f sessions h → HasCause (view_of f h) (turn_of h) t c → IsBorn (length (begun h)) t → is_open (phase_of t h) ≡ false }
{}

/// A transaction ends once: what is decided, refused or rolled back is never decided, refused or rolled back again.
pub fn ends_once()
    ensures { (f sessions t : ℕ) (last first : Entry) (more : List Entry) (before : History) → Begun f sessions (last ∷ more ++ first ∷ before) → ends t first.event ≡ true → ends t last.event ≡ false }
{}

/// An answer refuses nothing, and so no Failed one: in a turn whose call is an answer, a refusal is for the votes or for the
/// primary's going.
pub fn answers_refuse_nothing()
    ensures { (f sessions caller giver r t : ℕ) (answer : Answer) (c : CauseAt) (more : List Entry) (before : History)
        → Begun f sessions (record { caller = caller; event = Refuse t c } ∷ more ++ record { caller = giver; event = Give r (Ran (Done answer)) } ∷ before) → AreFollowUps more → is_no_reply c ≡ true }
{}
