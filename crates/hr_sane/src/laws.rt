//! The laws.
ghost use Rattle.std.specs.Prelude.{◌≡◌, ◌↔◌, ℕ, ◌+◌, ◌*◌, ◌<◌, ◌≤◌, true, false, Some, Ok, List, [], ◌∷◌, length, IsTrue};
ghost use Rattle.hr_history.specs.declared.entry.Entry.{Entry};
ghost use Rattle.hr_history.specs.declared.entry.Event.{Event};
ghost use Rattle.hr_history.specs.History.{History, history_of, is_call};
ghost use Rattle.hr_history.specs.Faithful.{Begun, Faithful, is_allowed};
ghost use Rattle.hr_history.specs.Transactions.{asks};
ghost use Rattle.hr_history.specs.Turn.{Turn, turn_of};
ghost use Rattle.hr_history.specs.Rules.{due_in};
ghost use Rattle.hr_history.specs.Turn.{is_sound_count};
ghost use Rattle.hr_history.specs.View.{View, view_of};
ghost use Rattle.hr_history.specs.Processed.{replica_in, processed_in};
ghost use Rattle.hr_history.specs.Votes.{is_decidable, is_contradicted, contradicted_by, difference_at};
ghost use Rattle.hr_history.specs.Words.{IsDecidable, IsContradicted};
ghost use Rattle.hr_history.specs.Replicas.{journal_of};
ghost use Rattle.hr_history.specs.Step.{view_step};
ghost use Rattle.hr_engine.specs.Journal.{Restarted};
ghost use Rattle.hr_engine.specs.Base.{count};
ghost use Rattle.hr_moves.specs.declared.outcome.Tally.TheVariants.{Undecided, Accept, Differ};
ghost use Rattle.hr_moves.specs.declared.outcome.Settled.TheVariants.{At, Wrong};
ghost use Rattle.hr_moves.specs.Outcomes.{tally_in, settle_in};
ghost use Rattle.hr_moves.specs.Sane.{IsSane};
ghost use Rattle.hr_moves.specs.Fits.{Fits};
ghost use Rattle.hr_moves.specs.Kept.{open_in, touched_in, next_open, next_touched_in, still_processed, processed_from};
ghost use Rattle.hr_moves.specs.Moves.{view_after};
ghost use Rattle.hr_moves.specs.Measure.{todo_in, room_in, reserved_by};
ghost use Rattle.hr_moves.specs.TurnSteps.{turn_step};
ghost use Rattle.hr_moves.specs.Callers.{IsTurn, Grows};

/// Before anything happened the view is sane, and where an event fits a sane view the view after it is sane too.
pub fn sane_views_stay_sane()
    ensures first { (f : ℕ) → IsSane (view_of f []) }
    ensures next { (v : View) (place asks : ℕ) (e : Event) → IsSane v → Fits v e → IsSane (view_step v place asks e) }
{}

/// In a history that has begun rightly each entry fits the view before it. So its view is sane.
pub fn begun_views_are_sane()
    ensures sane { (f sessions : ℕ) (h : History) → Begun f sessions h → IsSane (view_of f h) }
    ensures fits { (f sessions : ℕ) (e : Entry) (before : History) → Begun f sessions (e ∷ before) → Fits (view_of f before) e.event }
{}

/// In a sane view that it fits, each event changes what its word says, and nothing else. So of a history that has begun
/// rightly the view is, with one more entry, what the entry's word makes of the view before it.
pub fn moves_are_steps()
    ensures step { (v : View) (place asks : ℕ) (e : Event) → IsSane v → Fits v e → view_step v place asks e ≡ view_after v place asks e }
    ensures view { (f sessions : ℕ) (e : Entry) (before : History) → Begun f sessions (e ∷ before) → view_of f (e ∷ before) ≡ view_after (view_of f before) (length before) (asks before) e.event }
{}

/// What a turn keeps beside the view is, with one more entry, the step of what it kept before it.
pub fn turns_step()
    ensures { (f sessions : ℕ) (e : Entry) (before : History) → Begun f sessions (e ∷ before) → turn_of (e ∷ before) ≡ turn_step (view_of f before) (turn_of before) (length before) e.event }
{}

/// From a faithful history a turn that an allowed call begins leads to a faithful one. A call has one turn only.
pub fn turns_keep_faith()
    ensures faithful { (f sessions caller : ℕ) (call : Event) (before after : History) → Faithful f sessions before → IsTrue (is_allowed f sessions caller call before) → IsTurn f caller call before after → Faithful f sessions after }
    ensures one { (f caller : ℕ) (call : Event) (before after other : History) → IsTurn f caller call before after → IsTurn f caller call before other → after ≡ other }
{}

/// By a turn the stored list grows by entries of the turn's caller alone, and so it does by several turns of one caller.
pub fn turns_grow()
    ensures turn { (f caller : ℕ) (call : Event) (old new : List Entry) → IsTurn f caller call (history_of old) (history_of new) → Grows caller old new }
    ensures none { (caller : ℕ) (entries : List Entry) → Grows caller entries entries }
    ensures twice { (caller : ℕ) (first then last : List Entry) → Grows caller first then → Grows caller then last → Grows caller first last }
{}

/// What is due in a sane view fits it, and once it stands fewer entries may follow. So a turn ends.
pub fn measure_falls()
    ensures fits { (v : View) (turn : Turn) (e : Event) → IsSane v → due_in v turn ≡ Some e → Fits v e }
    ensures falls { (v : View) (turn : Turn) (place asks : ℕ) (e : Event) → IsSane v → due_in v turn ≡ Some e → todo_in (view_step v place asks e) + 1 ≤ todo_in v }
{}

/// No call takes more room, with its own entry, than was free before it and it reserves: a reply none, since it was
/// reserved when the job was given. What is due takes its entry from the room that is free.
pub fn room_is_kept()
    ensures calls { (v : View) (place asks : ℕ) (e : Event) → IsSane v → Fits v e → is_call e ≡ true → room_in (view_step v place asks e) + 1 ≤ room_in v + reserved_by e }
    ensures due { (v : View) (turn : Turn) (place asks : ℕ) (e : Event) → IsSane v → due_in v turn ≡ Some e → room_in (view_step v place asks e) + 1 ≤ room_in v }
{}

/// What the votes are told to say is what they say: Accept where the transaction may be decided, Differ where its given
/// answers are contradicted, with the lowest replica that does so and the first answer that it gave otherwise.
pub fn votes_are_told()
    ensures accept { (f t : ℕ) (h : History) → tally_in (view_of f h) t ≡ Accept ↔ IsDecidable f h t }
    ensures differ { (f t index by : ℕ) (h : History) → tally_in (view_of f h) t ≡ Differ index by ↔ IsContradicted f h t × (contradicted_by (view_of f h) t ≡ Some by) × (index ≡ difference_at (view_of f h) by t) }
    ensures undecided { (f t : ℕ) (h : History) → tally_in (view_of f h) t ≡ Undecided ↔ (is_decidable (view_of f h) t ≡ false) × (is_contradicted (view_of f h) t ≡ false) }
{}

/// A restart's count is Wrong exactly where it can't be right, and else as many commits count after the restart.
pub fn restarts_are_settled()
    ensures wrong { (f r told : ℕ) (h : History) → r < 2 * f + 1 → settle_in (replica_in (view_of f h) r) told ≡ Wrong ↔ (is_sound_count told (journal_of r h) ≡ false) }
    ensures at { (f r told n : ℕ) (h : History) → r < 2 * f + 1 → settle_in (replica_in (view_of f h) r) told ≡ At n → n ≡ count (Restarted (Ok told) ∷ journal_of r h) }
{}

/// What is kept beside a sane view needs no look at every transaction. An event adds one to the open ones or takes one away,
/// and so it does with the touched ones of a replica, or takes all of them away. How many of the log are processed at a
/// replica is found from the place in the log up to which the event leaves that as it was.
pub fn kept_lists()
    ensures opened { (v : View) (place asks : ℕ) (e : Event) → IsSane v → Fits v e → open_in (view_step v place asks e) ≡ next_open e (open_in v) }
    ensures touched { (v : View) (place asks r : ℕ) (e : Event) → IsSane v → Fits v e → touched_in (view_step v place asks e) r ≡ next_touched_in r e (replica_in v r).out (touched_in v r) }
    ensures processed { (v : View) (place asks r : ℕ) (e : Event) → IsSane v → Fits v e → processed_in (view_step v place asks e) r ≡ processed_from (view_step v place asks e) r (still_processed v r e) }
{}
