//! The laws.
ghost use Rattle.std.specs.Prelude.{◌≡◌, ℕ, ◌≤◌, true, List, length, Some, IsTrue};
ghost use Rattle.hr_said.specs.declared.scenario.Scenario.{Scenario};
ghost use Rattle.hr_history.specs.declared.entry.Event.{Event};
ghost use Rattle.hr_history.specs.History.{History};
ghost use Rattle.hr_history.specs.Replies.{reply_to, is_waiting};
ghost use Rattle.hr_history.specs.Faithful.{Begun, is_allowed, session_caller};
ghost use Rattle.hr_schedule.specs.Scripts.{next_call_of};
ghost use Rattle.hr_schedule.specs.Sessions.{HasPending, IsLast};
ghost use Rattle.hr_schedule.specs.Claims.{Locking, TableRows, IsRun, Claims};

/// What is claimed holds of every run: if few lie, the accepted answers are those of the committed transactions run alone, one
/// after another, in the order of their commits; and each replica whose script has no lie holds the database after the
/// first of these.
pub fn claims()
    ensures { (locking : Locking) (sc : Scenario) (h : History) (dumps : List TableRows) → IsRun locking sc h dumps → Claims locking sc h dumps }
{}

/// The next call of a session's script is one that the session may make: nothing refuses it but want of memory.
pub fn next_calls()
    ensures { (sc : Scenario) (s : ℕ) (h : History) (e : Event) → Begun sc.f (length sc.scripts) h → 1 ≤ s → s ≤ length sc.scripts → next_call_of sc s h ≡ Some e
        → IsTrue (is_allowed sc.f (length sc.scripts) (session_caller sc.f s) e h) }
{}

/// A session that waits has an open transaction: one whose commit is asked for, or one that has a statement without an
/// answer. The session's last try has begun it.
pub fn waiting_sessions()
    ensures waits { (f sessions s : ℕ) (h : History) → Begun f sessions h → is_waiting (reply_to s h) ≡ true → HasPending s h }
    ensures last { (f sessions retries s : ℕ) (h : History) → Begun f sessions h → IsLast retries s h }
{}
