ghost use Rattle.std.specs.Prelude.{◌≡◌, ◌≤◌, ◌||◌, ℕ, Bool, true, List, IfOk, OnErr, is_err};
ghost use Rattle.hr_rel.specs.Database.{Database};
ghost use Rattle.hr_engine.specs.declared.reply.RunReply.TheVariants.{NoMemory};
ghost use Rattle.hr_engine.specs.Journal.{Journal, Ran, Committed, RolledBack, Restarted};
ghost use Rattle.hr_engine.specs.Backend.{Extends, HasLossCause, AnswersCanonically, IsLegal, is_lost_run, is_lost_end};
ghost use Rattle.hr_base.specs.Counters.{Rose};

use crate::{EndReply, Lost, RunReply, TxnId};
use hr_rel::{Rows, Stmt};
use std::alloc::{AllocError, Global};

/// One database behind the shepherd, correct or not.
///
/// What a backend stands for is a relation over its value: start databases, each with a journal of the calls since.
/// No journal is stored.
pub trait Backend {
    /// The start databases that it stands for, each with its journal from there.
    ghost stands: { Self → Database → Journal → Type 0 };

    /// Numbers that no call changes, which tell what kind of backend it is.
    ghost make: { Self → List ℕ };

    /// Whether it is honest.
    ghost is_honest: { Self → Bool };

    /// Whether it is lost: from a reply `Lost` until a restart that answers Ok.
    ghost is_lost: { Self → Bool };

    /// How often it has lost its running transactions. A count that stands still at 2^64 - 1.
    ghost losses: { Self → ℕ };

    /// Its database after its commits, without what is running.
    ghost base: { Self → Database };

    /// Runs one statement of a transaction. A transaction begins with its first statement.
    fn run(&mut self, alloc: Global, txn: TxnId, stmt: &Stmt) -> RunReply
        ensures journal { Extends (stands self.old) (stands self.new) (Ran txn stmt.now result) }
        ensures make { make self.new ≡ make self.old }
        ensures canonical { AnswersCanonically result }
        ensures lost { is_lost self.new ≡ is_lost self.old || is_lost_run result }
        ensures losses { losses self.old ≤ losses self.new }
        ensures cause { HasLossCause (is_lost self.old) (losses self.old) (losses self.new) (is_lost_run result) }

        // Want of memory changes nothing, in the journal's words too.
        ensures base_at_no_memory { result ≡ NoMemory → base self.new ≡ base self.old }
        ensures losses_at_no_memory { result ≡ NoMemory → losses self.new ≡ losses self.old };

    /// Commits a transaction; one that hasn't run a statement is counted too. Takes no memory.
    fn commit(&mut self, txn: TxnId) -> EndReply
        ensures journal { Extends (stands self.old) (stands self.new) (Committed txn result) }
        ensures make { make self.new ≡ make self.old }
        ensures lost { is_lost self.new ≡ is_lost self.old || is_lost_end result }
        ensures losses { losses self.old ≤ losses self.new }
        ensures cause { HasLossCause (is_lost self.old) (losses self.old) (losses self.new) (is_lost_end result) };

    /// Undoes what a transaction has done. Takes no memory.
    fn rollback(&mut self, txn: TxnId) -> EndReply
        ensures journal { Extends (stands self.old) (stands self.new) (RolledBack txn result) }
        ensures make { make self.new ≡ make self.old }
        ensures lost { is_lost self.new ≡ is_lost self.old || is_lost_end result }
        ensures losses { losses self.old ≤ losses self.new }
        ensures cause { HasLossCause (is_lost self.old) (losses self.old) (losses self.new) (is_lost_end result) };

    /// Ends a loss: forgets what was running, keeps what was committed, and tells how many commits it has made.
    fn restart(&mut self) -> Result<u64, Lost>
        ensures journal { Extends (stands self.old) (stands self.new) (Restarted result) }
        ensures make { make self.new ≡ make self.old }
        ensures lost { is_lost self.new ≡ is_err result }
        ensures losses { losses self.old ≤ losses self.new }
        ensures cause { OnErr result (Rose (losses self.old) (losses self.new)) };

    /// The rows of the database after its commits, whatever is running.
    fn dump(&self, alloc: Global) -> Result<Rows, AllocError>
        ensures { is_honest self.now ≡ true → IfOk result (λ rows. rows ≡ (base self.now).tables) };

    /// Its make alone decides whether a backend is honest.
    ghost honesty: { (a b : Self) → make a ≡ make b → is_honest a ≡ is_honest b };

    /// Each journal that an honest backend stands for is rigorous, and tells of its base.
    ghost legal: { (b : Self) (db : Database) (journal : Journal) → is_honest b ≡ true → stands b db journal → IsLegal db journal (base b) };
}
