//! The rules read backwards, from an entry that stands to why it does; and what every history keeps.
ghost use Rattle.std.specs.Prelude.{◌≡◌, ℕ, ◌+◌, true, false, Some, None, ◌∷◌, length};
ghost use Rattle.hr_rel.specs.declared.stmt.Stmt.{Stmt};
ghost use Rattle.hr_history.specs.declared.entry.Entry.{Entry};
ghost use Rattle.hr_history.specs.declared.entry.Event.TheVariants.{Begin, Submit};
ghost use Rattle.hr_history.specs.declared.job.Job.{Job};
ghost use Rattle.hr_history.specs.History.{History, is_call};
ghost use Rattle.hr_history.specs.Transactions.{begun, submits, phase_of, is_open};
ghost use Rattle.hr_history.specs.Given.{given_to};
ghost use Rattle.hr_history.specs.Jobs.{job_in};
ghost use Rattle.hr_history.specs.Rules.{due};
ghost use Rattle.hr_history.specs.Turn.{turn_of};
ghost use Rattle.hr_history.specs.View.{View, view_of};
ghost use Rattle.hr_history.specs.Faithful.{Begun};
ghost use Rattle.hr_records.specs.ByRule.{Follows, IsJobOf};
ghost use Rattle.hr_records.specs.Numbers.{NumbersAt};
ghost use Rattle.hr_records.specs.AtReplica.{AtReplicaAt};
ghost use Rattle.hr_records.specs.Leads.{LeadsAt};

/// What follows in a turn was due, and stands there by its rule.
pub fn follows_by_rule()
    ensures due { (f sessions : ℕ) (e : Entry) (before : History) → Begun f sessions (e ∷ before) → is_call e.event ≡ false → due f before ≡ Some e.event }
    ensures rule { (f sessions : ℕ) (e : Entry) (before : History) → Begun f sessions (e ∷ before) → is_call e.event ≡ false → Follows (view_of f before) (turn_of before) e.event }
{}

/// Where a call stands, nothing was due.
pub fn nothing_due_at_a_call()
    ensures { (f sessions : ℕ) (e : Entry) (before : History) → Begun f sessions (e ∷ before) → is_call e.event ≡ true → due f before ≡ None }
{}

/// The job of a replica is its job by the rule for such jobs.
pub fn job_by_rule()
    ensures { (v : View) (r : ℕ) (j : Job) → job_in v r ≡ Some j → IsJobOf v r j }
{}

/// Transactions and statements have the next number: the k-th Begin has number k, and a transaction's i-th Submit index i.
pub fn next_numbers()
    ensures begins { (f sessions caller session txn : ℕ) (before : History) → Begun f sessions (record { caller = caller; event = Begin session txn } ∷ before) → txn ≡ length (begun before) + 1 }
    ensures submits { (f sessions caller txn index : ℕ) (stmt : Stmt) (before : History) → Begun f sessions (record { caller = caller; event = Submit txn index stmt } ∷ before) → index ≡ length (submits txn before) + 1 }
{}

/// In every history that has begun rightly numbers and phases fit: a session has one open transaction at most, the log has
/// the decided ones at their places, and statements and answers are as many as the phase says.
pub fn numbers_and_phases()
    ensures { (f sessions : ℕ) (h : History) → Begun f sessions h → NumbersAt h }
{}

/// Each replica's part fits, whatever it replies: its attempts begin what was submitted, its commits begin the log, and a
/// commit in doubt is the next one.
pub fn part_of_each_replica()
    ensures { (f sessions : ℕ) (h : History) (r : ℕ) → Begun f sessions h → AtReplicaAt r h }
{}

/// The primary's attempts of open transactions have as many answers as were given, and no other replica's have more.
pub fn part_of_the_primary()
    ensures { (f sessions : ℕ) (h : History) (r : ℕ) → Begun f sessions h → LeadsAt r h }
{}

/// What is decided, refused or rolled back stands: its phase with its place in the log, its statements, and the answers
/// given to it, which are the accepted ones of a decided transaction.
pub fn closed_stands()
    ensures phase { (f sessions t : ℕ) (e : Entry) (before : History) → Begun f sessions (e ∷ before) → is_open (phase_of t before) ≡ false → phase_of t (e ∷ before) ≡ phase_of t before }
    ensures statements { (f sessions t : ℕ) (e : Entry) (before : History) → Begun f sessions (e ∷ before) → is_open (phase_of t before) ≡ false → submits t (e ∷ before) ≡ submits t before }
    ensures answers { (f sessions t : ℕ) (e : Entry) (before : History) → Begun f sessions (e ∷ before) → is_open (phase_of t before) ≡ false → given_to t (e ∷ before) ≡ given_to t before }
{}
