//! The laws.
ghost use Rattle.std.specs.Prelude.{◌≡◌, true, ℕ, ◌+◌, ◌*◌, ◌<◌, ◌≤◌, Some, List, ◌∷◌, ◌++◌, length};
ghost use Rattle.hr_base.specs.Lists.{numbered};
ghost use Rattle.hr_rel.specs.declared.answer.Answer.{Answer};
ghost use Rattle.hr_rel.specs.Database.{Database};
ghost use Rattle.hr_engine.specs.Attempts.{attempt, answers};
ghost use Rattle.hr_engine.specs.declared.reply.RunReply.TheVariants.{Done};
ghost use Rattle.hr_history.specs.declared.entry.Entry.{Entry};
ghost use Rattle.hr_history.specs.declared.entry.Event.TheVariants.{Give};
ghost use Rattle.hr_history.specs.declared.job.Job.TheVariants.{Run};
ghost use Rattle.hr_history.specs.declared.job.JobReply.TheVariants.{Ran};
ghost use Rattle.hr_history.specs.History.{History};
ghost use Rattle.hr_history.specs.Transactions.{log, phase_of, is_open};
ghost use Rattle.hr_history.specs.Replicas.{out_at, journal_of};
ghost use Rattle.hr_history.specs.Primary.{primary_of};
ghost use Rattle.hr_history.specs.Words.{processed_of};
ghost use Rattle.hr_history.specs.Given.{Given, given_to, answers_given};
ghost use Rattle.hr_history.specs.Faithful.{Begun, Correct};
ghost use Rattle.hr_barriers.specs.Played.{IsProcessedTo, IsNoneOfTheFirst, AnswersAsPlayed, IsAnswerAsPlayed};
ghost use Rattle.hr_barriers.specs.Served.{IsServed};
ghost use Rattle.hr_barriers.specs.Stamps.{span, AreStampedTo};

/// The answers given to an open transaction are those in the primary's attempt of it.
pub fn given_by_the_primary()
    ensures { (f sessions t r : ℕ) (h : History) → Begun f sessions h → primary_of h ≡ Some r → is_open (phase_of t h) ≡ true → answers_given (given_to t h) ≡ answers (attempt t (journal_of r h)) }
{}

/// The whole log is processed at the primary.
pub fn primary_processes_all()
    ensures { (f sessions r : ℕ) (h : History) → Begun f sessions h → primary_of h ≡ Some r → processed_of f h r ≡ length (log h) }
{}

/// The stamps of the answers given to a transaction ascend, and none is above its span: the length of the log, as of the
/// transaction's end.
pub fn stamps()
    ensures { (f sessions t : ℕ) (h : History) → Begun f sessions h → AreStampedTo (given_to t h) (span t h) }
{}

/// A correct replica's attempt of a transaction answers as the transaction does alone, on the database after the first
/// transactions of the log: after as many as are committed there, or more, as far as they are processed there and the
/// transaction is none of them. So its answers are the same on each of these databases.
pub fn answers_as_played()
    ensures { (f sessions r place t : ℕ) (db : Database) (h : History) → Begun f sessions h → r < 2 * f + 1 → Correct db h r → IsProcessedTo f r place h → IsNoneOfTheFirst place t h
        → AnswersAsPlayed db place t r h }
{}

/// What a correct replica answers to a statement, at a first run or a later one, is the statement's answer in the transaction
/// alone, on each database that may have stood there: that after any first part of the log that is processed there, from what
/// is committed on, and that hasn't the transaction itself.
pub fn done_as_played()
    ensures { (f sessions caller r t i place : ℕ) (told : Answer) (db : Database) (before : History) → Begun f sessions (record { caller = caller; event = Give r (Ran (Done told)) } ∷ before)
        → out_at r before ≡ Some (Run t i) → Correct db (record { caller = caller; event = Give r (Ran (Done told)) } ∷ before) r
        → IsProcessedTo f r place (record { caller = caller; event = Give r (Ran (Done told)) } ∷ before) → IsNoneOfTheFirst place t (record { caller = caller; event = Give r (Ran (Done told)) } ∷ before)
        → IsAnswerAsPlayed db place t i told (record { caller = caller; event = Give r (Ran (Done told)) } ∷ before) }
{}

/// Each answer that a transaction was given is its statement's answer, in the transaction alone, on every database from the
/// answer's stamp on: after so many of the log, or more, as far as the log was when the transaction ended. For this who was
/// the primary while the transaction was open, and had answers, has to be correct as far as then, and nobody else.
pub fn given_on()
    ensures { (f sessions t i place : ℕ) (db : Database) (given : Given) (h : History) → Begun f sessions h → IsServed db t h → numbered (given_to t h) i ≡ Some given
        → given.stamp ≤ place → place ≤ span t h → IsAnswerAsPlayed db place t i given.answer h }
{}

/// An answer that is ever given to a statement has been given once any replica has answered the statement: at that reply, or
/// before. So what is answered sooner was asked of a transaction that has ended, and no answer is given to it any more.
pub fn given_by_then()
    ensures { (f sessions caller r t i : ℕ) (told : Answer) (given : Given) (more : List Entry) (before : History) → Begun f sessions (more ++ record { caller = caller; event = Give r (Ran (Done told)) } ∷ before)
        → out_at r before ≡ Some (Run t i) → numbered (given_to t (more ++ record { caller = caller; event = Give r (Ran (Done told)) } ∷ before)) i ≡ Some given
        → numbered (given_to t (record { caller = caller; event = Give r (Ran (Done told)) } ∷ before)) i ≡ Some given }
{}

/// The barrier theorem: what a correct replica answers to a statement is the answer that was given to it, or ever is, one and
/// the same; whenever the replica answers: at a first run or a later one, before the transaction's end or after. For this who
/// was the primary while the transaction was open, and had answers, has to be correct as far as then, and the replica as far as
/// this reply. However many others lie doesn't matter.
pub fn barrier()
    ensures { (f sessions caller r t i : ℕ) (told : Answer) (given : Given) (db : Database) (more : List Entry) (before : History)
        → Begun f sessions (more ++ record { caller = caller; event = Give r (Ran (Done told)) } ∷ before) → out_at r before ≡ Some (Run t i)
        → IsServed db t (record { caller = caller; event = Give r (Ran (Done told)) } ∷ before) → Correct db (record { caller = caller; event = Give r (Ran (Done told)) } ∷ before) r
        → numbered (given_to t (more ++ record { caller = caller; event = Give r (Ran (Done told)) } ∷ before)) i ≡ Some given → given.answer ≡ told }
{}
