//! The laws.
ghost use Rattle.std.specs.Prelude.{ℕ};
ghost use Rattle.hr_rel.specs.Database.{Database};
ghost use Rattle.hr_history.specs.History.{History};
ghost use Rattle.hr_history.specs.Faithful.{Begun};
ghost use Rattle.hr_serial.specs.Prefix.{IsAtPrefix};
ghost use Rattle.hr_serial.specs.Serial.{LiarsAreAtMost, AtEachDecide, AreSerial};

/// Each replica, whatever it replies, is at a prefix of the log: its commits are the first of the log, statement by
/// statement, a commit in doubt is the next one, and its base is the database after that prefix.
pub fn replicas_at_a_prefix()
    ensures { (f sessions : ℕ) (h : History) (r : ℕ) → Begun f sessions h → IsAtPrefix h r }
{}

/// Where at each decision at most f of the 2f + 1 replicas weren't correct until then, the accepted answers are those of
/// the log's transactions run alone, one after another, from the start database. It is enough that at most f aren't
/// correct in the end.
pub fn serial_answers()
    ensures at_each_decision { (f sessions : ℕ) (db : Database) (h : History) → Begun f sessions h → AtEachDecide (LiarsAreAtMost f f db) h → AreSerial db h }
    ensures in_the_end { (f sessions : ℕ) (db : Database) (h : History) → Begun f sessions h → LiarsAreAtMost f f db h → AreSerial db h }
{}
