ghost use Rattle.std.specs.Prelude.{◌≡◌, ℕ, ℤ, false, Option, List, IfOk, OnOk, OnErr};
ghost use Rattle.hr_rel.specs.Database.{Database};
ghost use Rattle.hr_meaning.specs.Exec.{exec};
ghost use Rattle.hr_meaning.specs.SameAnswer.{SameAnswer};
ghost use Rattle.hr_parts.specs.Parts.{row_at};
ghost use Rattle.hr_lock_engine.specs.Views.{Seen, Wrote, IsView, AreFree, Sees, SameSeen, OthersSee, SeeCommitted, WroteWithin, NoMoreWrote, WroteNothing};

use crate::Locking;
use hr_engine::TxnId;
use hr_rel::{Answer, Rows, Stmt};
use std::alloc::{AllocError, Global};

/// Rows that transactions read and change beside each other, where names of this kind keep them apart.
///
/// It locks nothing. Whoever runs a statement has seen to it that no other transaction has written in the rows that the
/// statement needs.
pub trait TxnStore<N: Locking> {
    /// What is committed.
    ghost base: { Self → Database };

    /// The row that a transaction sees at a key of a table.
    ghost seen: { Self → Seen };

    /// Where a transaction has written.
    ghost wrote: { Self → Wrote };

    /// What kind of engine it makes.
    ghost kind: { List ℕ };

    /// Runs a statement for a transaction, on what the transaction sees. What it changes, this transaction alone sees. An
    /// error is want of memory, and then nothing has changed.
    fn run(&mut self, alloc: Global, txn: TxnId, stmt: &Stmt) -> Result<Answer, AllocError>
        requires { AreFree (wrote self.old) txn (N.parts stmt.now) }
        ensures answer { IfOk result (λ answer. (db : Database) → IsView (base self.old) (seen self.old txn) db → SameAnswer (exec db stmt.now).answer answer) }
        ensures after { OnOk result ((db : Database) → IsView (base self.old) (seen self.old txn) db → Sees (seen self.new) txn (exec db stmt.now).after) }
        ensures wrote { OnOk result (WroteWithin txn (N.parts stmt.now) (wrote self.old) (wrote self.new)) }
        ensures others { OthersSee txn (seen self.old) (seen self.new) }
        ensures base { base self.new ≡ base self.old }
        ensures err { OnErr result (SameSeen (seen self.old) (seen self.new)) }
        ensures err_wrote { OnErr result (NoMoreWrote (wrote self.old) (wrote self.new)) };

    /// What a transaction sees is committed. Takes no memory.
    fn commit(&mut self, txn: TxnId)
        ensures base { (db : Database) → IsView (base self.old) (seen self.old txn) db → base self.new ≡ db }
        ensures seen { SeeCommitted txn (wrote self.old) (seen self.old) (seen self.new) }
        ensures wrote { WroteNothing txn (wrote self.old) (wrote self.new) };

    /// What a transaction has written is undone. Takes no memory.
    fn rollback(&mut self, txn: TxnId)
        ensures base { base self.new ≡ base self.old }
        ensures seen { Sees (seen self.new) txn (base self.old) }
        ensures others { OthersSee txn (seen self.old) (seen self.new) }
        ensures wrote { WroteNothing txn (wrote self.old) (wrote self.new) };

    /// What all transactions have written is undone. Takes no memory.
    fn forget(&mut self)
        ensures base { base self.new ≡ base self.old }
        ensures seen { (u : ℕ) → Sees (seen self.new) u (base self.old) }
        ensures wrote { (u t : ℕ) (k : ℤ) → wrote self.new u t k ≡ false };

    /// The committed rows of each table, whatever is running. An error is want of memory.
    fn dump(&self, alloc: Global) -> Result<Rows, AllocError>
        ensures { IfOk result (λ rows. rows ≡ (base self.now).tables) };

    /// Where a transaction hasn't written, it sees what is committed.
    ghost unwritten: { (s : Self) (u t : ℕ) (k : ℤ) → wrote s u t k ≡ false → seen s u t k ≡ row_at (base s) t k };
}
