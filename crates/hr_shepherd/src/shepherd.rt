//! The public surface of the core.
ghost use Rattle.std.specs.Prelude.{◌≡◌, ◌≤◌, ℕ, None, [], length, IfOk, OnOk, OnErr};
ghost use Rattle.hr_history.specs.Primary as history;
ghost use Rattle.hr_history.specs.Transactions as transactions;
ghost use Rattle.hr_history.specs.declared.entry.Event.TheVariants as event;
ghost use Rattle.hr_rel.specs.Database.{Database};
ghost use Rattle.hr_history.specs.Words.{IsDecidable, IsContradicted};
ghost use Rattle.hr_moves.specs.Callers.{Grows};
ghost use Rattle.hr_serial.specs.Prefix.{IsAtPrefix};
ghost use Rattle.hr_serial.specs.Serial.{LiarsAreAtMost, AtEachDecide, AreSerial};
ghost use Rattle.hr_ledger.specs.Chronicle.{history_in, view_in, IsFaithful};
ghost use Rattle.hr_core.specs.Suspects as suspicions;
ghost use Rattle.hr_core.specs.Turns.{HasTurn};
ghost use Rattle.hr_shepherd.specs.Refused.{IsRefusedFor};
ghost use Rattle.hr_shepherd.specs.Promises.{KeepsBarrier, ConvictsLiars, ShowsCauses, IsComplete};

mod replicas;
mod sessions;

use crate::refusal::Refusal;
use hr_core::Core;
use hr_entries::Entries;
use hr_progress::View;
use std::alloc::{AllocError, Global};
use std::marker::Model;

/// The shepherd of `2f + 1` replicas and so many sessions. Contracts see its history, with `f` and the number of sessions.
pub struct Shepherd {
    core: Box<Core>,
}

impl Drop for Shepherd {
    fn drop(self) {
        let Shepherd { core: _core } = self;
    }
}

impl Model for Shepherd {
    ghost use Rattle.hr_ledger.specs.Chronicle.{Chronicle, IsQuiet};

    ghost Value = { Chronicle };

    // the code of conditions and expressions, which hold themselves
    ghost use Rattle.std.specs.Coded.{codes};
    ghost use Rattle.hr_rel.specs.contracts.expr.Pred as pred;
    ghost use Rattle.hr_rel.specs.contracts.expr.Expr as expr;

    ghost coded = { Prim.hlevel (codes, pred.the_row.coded, expr.the_row.coded) };

    ghost view = { λ s. s.core.value };

    ghost invariant = { λ s. IsQuiet s.core.value };
}

impl Shepherd {
    /// A shepherd before anything happened: replica 0 is the primary.
    pub fn new(alloc: Global, f: u32, sessions: u32) -> Result<Shepherd, AllocError>
        requires few { f ≤ 3 }
        ensures { IfOk result (λ shepherd. shepherd ≡ record { f = f; sessions = sessions; entries = [] }) }
    {
        let core = Core::new(alloc, f, sessions)?;
        match Box::new(alloc, core) {
            Ok(core) => Ok(Shepherd { core }),
            Err(_) => Err(AllocError),
        }
    }

    /// Somebody suspects the primary. Refused only for want of memory.
    pub fn suspect(&mut self, caller: u64) -> Result<(), Refusal>
        ensures refused { IsRefusedFor None result }
        ensures ok { OnOk result (HasTurn caller event.Suspect self.old self.new) }
        ensures err { OnErr result (self.new ≡ self.old) }
        ensures grows { Grows caller self.old.entries self.new.entries }
    {
        self.core.suspect(caller)?;
        Ok(())
    }

    /// How many of its replicas may lie: there are `2f + 1`.
    pub fn f(&self) -> u32
        ensures { result ≡ self.now.f }
    {
        self.core.ledger().view().f()
    }

    /// How many sessions there are. They are numbered from 1.
    pub fn sessions(&self) -> u32
        ensures { result ≡ self.now.sessions }
    {
        self.core.ledger().sessions()
    }

    /// How many transactions are decided.
    pub fn commits(&self) -> u64
        ensures { result ≡ length (transactions.log (history_in self.now)) }
    {
        self.core.ledger().view().commits()
    }

    /// How often the primary was suspected.
    pub fn suspects(&self) -> u64
        ensures { result ≡ suspicions.suspects (history_in self.now) }
    {
        self.core.suspects()
    }

    /// The primary, if there is one.
    pub fn primary(&self) -> Option<u32>
        ensures { result ≡ history.primary_of (history_in self.now) }
    {
        self.core.ledger().view().primary()
    }

    /// The view that the history has.
    pub fn view(&self) -> &View
        ensures { result.now ≡ view_in self.now }
    {
        self.core.ledger().view()
    }

    /// The history, lent. It follows the rules. Each replica, whatever it replies, is at a prefix of the log. Where at each
    /// decision at most `f` replicas weren't correct until then, the accepted answers are those of the log's transactions run
    /// alone, one after another. Nothing is left that may be decided, or whose given answers are contradicted. What a correct
    /// replica answers to a statement is what the session was given, where the primaries that gave it were correct then. Who is
    /// convicted wasn't correct. The history shows why each refused transaction was. Where a correct primary is never lost nor
    /// suspected, it stays, and refuses at most for its own reply.
    pub fn history(&self) -> Entries<'_>
        ensures entries { result ≡ self.now.entries }
        ensures faithful { IsFaithful self.now }
        ensures prefix { (r : ℕ) → IsAtPrefix (history_in self.now) r }
        ensures decided { (t : ℕ) → IsDecidable self.now.f (history_in self.now) t → ⊥ }
        ensures contradicted { (t : ℕ) → IsContradicted self.now.f (history_in self.now) t → ⊥ }
        ensures serial { (db : Database) → AtEachDecide (LiarsAreAtMost self.now.f self.now.f db) (history_in self.now) → AreSerial db (history_in self.now) }
        ensures barrier { (db : Database) → KeepsBarrier db (history_in self.now) }
        ensures not_convicted { (db : Database) → ConvictsLiars self.now.f db (history_in self.now) }
        ensures causes { ShowsCauses (history_in self.now) }
        ensures complete { (db : Database) → IsComplete self.now.f db (history_in self.now) }
    {
        self.core.ledger().begun();
        self.core.ledger().entries()
    }
}
