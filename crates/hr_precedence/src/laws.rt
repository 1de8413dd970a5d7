//! The laws.
ghost use Rattle.std.specs.Prelude.{◌≡◌, ◌⊎◌, ℕ, ◌+◌, ◌*◌, ◌<◌, ◌≤◌, Bool, true, false, ◌&&◌, Some, None, [], ◌∷◌, length};
ghost use Rattle.hr_engine.specs.Attempts.{is_running};
ghost use Rattle.hr_engine.specs.Waits.{wait, standing};
ghost use Rattle.hr_history.specs.declared.cause.CauseAt.TheVariants.{Differ};
ghost use Rattle.hr_history.specs.declared.entry.Entry.{Entry};
ghost use Rattle.hr_history.specs.declared.entry.Event.TheVariants.{Convict, Decide, Preempt, Refuse};
ghost use Rattle.hr_history.specs.declared.evidence.Evidence.TheVariants.{Contradicted};
ghost use Rattle.hr_history.specs.declared.job.Job.TheVariants.{Rollback, Run};
ghost use Rattle.hr_history.specs.declared.phase.Phase.TheVariants.{Asked};
ghost use Rattle.hr_history.specs.History.{History};
ghost use Rattle.hr_history.specs.SameAnswers.{same_answers};
ghost use Rattle.hr_history.specs.Transactions.{begun, phase_of, is_asked};
ghost use Rattle.hr_history.specs.Replicas.{journal_of};
ghost use Rattle.hr_history.specs.Primary.{primary_of, search_after, is_live};
ghost use Rattle.hr_history.specs.Attempts.{is_touched};
ghost use Rattle.hr_history.specs.Turn.{went};
ghost use Rattle.hr_history.specs.View.{view_of};
ghost use Rattle.hr_history.specs.Processed.{is_whole, answers_in, given_in, candidate_in, is_caught_up};
ghost use Rattle.hr_history.specs.Jobs.{next_in_log};
ghost use Rattle.hr_history.specs.Words.{IsDecidable, IsContradicted, job};
ghost use Rattle.hr_history.specs.Faithful.{Begun, Faithful};
ghost use Rattle.hr_records.specs.Numbers.{IsBorn};
ghost use Rattle.hr_decisions.specs.Groups.{IsGroup};
ghost use Rattle.hr_precedence.specs.Ends.{IsFree, HasToEnd};
ghost use Rattle.hr_precedence.specs.GivesWay.{IsInTheWay, IsLastOfCycle};

/// What was refused, rolled back or preempted goes first: as long as something of it is left at a free replica, the replica's
/// job is a rollback.
pub fn rollbacks_first()
    ensures { (f r t : ℕ) (h : History) → r < 2 * f + 1 → IsFree r h → IsBorn (length (begun h)) t → is_touched t (journal_of r h) ≡ true → HasToEnd r t h → (u : ℕ) × (job f h r ≡ Some (Rollback u)) }
{}

/// A commit goes before a run: where a replica's job is a run, the next transaction of the log isn't whole there with the
/// accepted answers.
pub fn commits_before_runs()
    ensures { (f r t i u : ℕ) (h : History) → job f h r ≡ Some (Run t i) → next_in_log (view_of f h) r ≡ Some u
        → is_whole (view_of f h) r u && same_answers (answers_in (view_of f h) r u) (given_in (view_of f h) u) ≡ false }
{}

/// Waits are kept: where a replica's job is a run of a transaction, that waits for nobody there, and no cycle of waits stands that
/// it was told of.
pub fn waits_are_kept()
    ensures { (f r t i : ℕ) (h : History) → r < 2 * f + 1 → job f h r ≡ Some (Run t i) → (wait t (journal_of r h) ≡ []) × (standing t (journal_of r h) ≡ None) }
{}

/// Of several that may be decided, the one whose commit was asked for first is decided; and of several whose given answers are
/// contradicted, the one whose commit was asked for first is refused.
pub fn in_the_order_of_asking()
    ensures decided { (f sessions caller t u n m : ℕ) (before : History) → Begun f sessions (record { caller = caller; event = Decide t } ∷ before) → IsDecidable f before u → phase_of t before ≡ Asked n → phase_of u before ≡ Asked m → n ≤ m }
    ensures refused { (f sessions caller t index by at u n m : ℕ) (before : History) → Begun f sessions (record { caller = caller; event = Refuse t (Differ index by at) } ∷ before) → IsContradicted f before u
        → phase_of t before ≡ Asked n → phase_of u before ≡ Asked m → n ≤ m }
{}

/// In a turn in which the primary went, nothing is decided. While something may be decided, nothing is refused for the votes. While
/// there is no primary and the candidate has caught up, nobody is preempted.
pub fn kinds_in_order()
    ensures goings { (f sessions caller t : ℕ) (before : History) → Begun f sessions (record { caller = caller; event = Decide t } ∷ before) → went before ≡ None }
    ensures decisions { (f sessions caller t index by at u : ℕ) (before : History) → Begun f sessions (record { caller = caller; event = Refuse t (Differ index by at) } ∷ before) → IsDecidable f before u → ⊥ }
    ensures primaries { (f sessions caller r t q : ℕ) (before : History) → Begun f sessions (record { caller = caller; event = Preempt r t } ∷ before) → primary_of before ≡ None → candidate_in (view_of f before) ≡ Some q
        → is_caught_up (view_of f before) q ≡ true → ⊥ }
{}

/// Whose votes count: where a transaction is decided, or refused for the votes, f + 1 replicas are live; and what is refused for
/// the votes was asked to be committed.
pub fn votes_of_live_replicas()
    ensures decided { (f sessions caller t : ℕ) (before : History) → Begun f sessions (record { caller = caller; event = Decide t } ∷ before) → IsGroup f (λ r. is_live r before) }
    ensures refused { (f sessions caller t index by at : ℕ) (before : History) → Begun f sessions (record { caller = caller; event = Refuse t (Differ index by at) } ∷ before) → IsGroup f (λ r. is_live r before) }
    ensures asked { (f sessions caller t index by at : ℕ) (before : History) → Begun f sessions (record { caller = caller; event = Refuse t (Differ index by at) } ∷ before) → is_asked (phase_of t before) ≡ true }
{}

/// Who is preempted at a replica runs there and doesn't have to end anyway, and the replica isn't the primary. It is in the way of
/// a transaction that is decided or asked and ranks before it, or it is the last in rank of a cycle of waits that stands and of
/// which none has to end anyway.
pub fn gives_way()
    ensures runs { (f sessions caller r t : ℕ) (before : History) → Begun f sessions (record { caller = caller; event = Preempt r t } ∷ before) → is_running t (journal_of r before) ≡ true }
    ensures stays { (f sessions caller r t : ℕ) (before : History) → Begun f sessions (record { caller = caller; event = Preempt r t } ∷ before) → HasToEnd r t before → ⊥ }
    ensures secondary { (f sessions caller r t : ℕ) (before : History) → Begun f sessions (record { caller = caller; event = Preempt r t } ∷ before) → primary_of before ≡ Some r → ⊥ }
    ensures why { (f sessions caller r t : ℕ) (before : History) → Begun f sessions (record { caller = caller; event = Preempt r t } ∷ before) → IsInTheWay f r t before ⊎ IsLastOfCycle f r t before }
{}

/// After a refusal for the votes the primary is convicted for it, at once.
pub fn contradiction_convicts()
    ensures next { (f sessions caller t index by at p : ℕ) (e : Entry) (before : History) → Begun f sessions (e ∷ record { caller = caller; event = Refuse t (Differ index by at) } ∷ before) → primary_of before ≡ Some p
        → e.event ≡ Convict p (Contradicted t index) }
    ensures owed { (f sessions caller t index by at p : ℕ) (before : History) → Faithful f sessions (record { caller = caller; event = Refuse t (Differ index by at) } ∷ before) → primary_of before ≡ Some p → ⊥ }
{}

/// While there is a primary, the search for the next would start with the one after it.
pub fn search_goes_on_from_the_primary()
    ensures { (f p : ℕ) (h : History) → primary_of h ≡ Some p → search_after f h ≡ p }
{}
