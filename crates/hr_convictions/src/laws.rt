//! The laws.
ghost use Rattle.std.specs.Prelude.{ℕ, ◌∷◌};
ghost use Rattle.hr_rel.specs.Database.{Database};
ghost use Rattle.hr_history.specs.declared.entry.Event.TheVariants.{Convict};
ghost use Rattle.hr_history.specs.declared.evidence.Evidence.TheVariants.{Contradicted, Differs, BadBlocked, BadDeadlock, BadRestart};
ghost use Rattle.hr_history.specs.History.{History};
ghost use Rattle.hr_history.specs.Faithful.{Begun, Correct};
ghost use Rattle.hr_serial.specs.Serial.{LiarsAreAtMost, AtEachDecide};

/// No correct replica is convicted for a Blocked reply.
pub fn blocked()
    ensures { (f sessions caller r t : ℕ) (db : Database) (before : History) → Begun f sessions (record { caller = caller; event = Convict r (BadBlocked t) } ∷ before) → Correct db before r → ⊥ }
{}

/// No correct replica is convicted for a Deadlock reply.
pub fn deadlock()
    ensures { (f sessions caller r t : ℕ) (db : Database) (before : History) → Begun f sessions (record { caller = caller; event = Convict r (BadDeadlock t) } ∷ before) → Correct db before r → ⊥ }
{}

/// No correct replica is convicted for the count that it told at a restart.
pub fn restart()
    ensures { (f sessions caller r told : ℕ) (db : Database) (before : History) → Begun f sessions (record { caller = caller; event = Convict r (BadRestart told) } ∷ before) → Correct db before r → ⊥ }
{}

/// Where at each decision so far at most f of the 2f + 1 replicas weren't correct until then, no correct replica is convicted
/// because its answers differ from the accepted ones.
pub fn differs()
    ensures { (f sessions caller r t i : ℕ) (db : Database) (before : History) → Begun f sessions (record { caller = caller; event = Convict r (Differs t i) } ∷ before) → Correct db before r
        → AtEachDecide (LiarsAreAtMost f f db) before → ⊥ }
{}

/// Where at most f of the 2f + 1 replicas weren't correct until now, no correct primary is convicted because others contradict
/// an answer of its.
pub fn contradicted()
    ensures { (f sessions caller r t i : ℕ) (db : Database) (before : History) → Begun f sessions (record { caller = caller; event = Convict r (Contradicted t i) } ∷ before) → Correct db before r
        → LiarsAreAtMost f f db before → ⊥ }
{}
