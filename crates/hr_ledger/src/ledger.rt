//! The kept history.
ghost use Rattle.std.specs.Prelude.{◌≡◌, ◌≤◌, [], IfOk};

mod calls;
mod follows;
mod reads;

use crate::room::reserve;
use crate::script::Script;
use hr_due::Turn;
use hr_entries::Stored;
use hr_progress::View;
use hr_rel::Stmt;
use std::alloc::{AllocError, Global};
use std::marker::Model;

/// The one kept history of `2f + 1` replicas and so many sessions. Contracts see its entries, with `f` and the number of
/// sessions.
pub struct Ledger {
    sessions: u32,
    stored: Vec<Stored>,
    /// All statements that were submitted, in order.
    statements: Vec<Stmt>,
    /// Transaction T stands at the place T - 1.
    scripts: Vec<Script>,
    /// How often a commit was asked for.
    asks: u64,
    turn: Turn,
    /// It has the replies to all runs.
    view: View,
}

impl Drop for Ledger {
    fn drop(self) {
        let Ledger {
            sessions: _sessions,
            stored: _stored,
            statements: _statements,
            scripts: _scripts,
            asks: _asks,
            turn: _turn,
            view: _view,
        } = self;
    }
}

impl Model for Ledger {
    ghost use Rattle.std.specs.Prelude.{List, IsTrue};
    ghost use Rattle.hr_ledger.specs.Chronicle.{Chronicle};

    ghost Value = { Chronicle };

    // the code of conditions and expressions, which hold themselves
    ghost use Rattle.std.specs.Coded.{codes};
    ghost use Rattle.hr_rel.specs.contracts.expr.Pred as pred;
    ghost use Rattle.hr_rel.specs.contracts.expr.Expr as expr;

    ghost coded = { Prim.hlevel (codes, pred.the_row.coded, expr.the_row.coded) };

    ghost use Rattle.hr_ledger.specs.Kept.{seen, IsKept};

    ghost view = { seen };

    ghost invariant = { IsKept };
}

impl Ledger {
    ghost use Rattle.hr_ledger.specs.Chronicle.{Chronicle};

    /// The history before anything happened.
    pub fn new(alloc: Global, f: u32, sessions: u32) -> Result<Ledger, AllocError>
        requires few { f ≤ 3 }
        ensures { IfOk result (λ ledger. ledger ≡ record { f = f; sessions = sessions; entries = [] }) }
    {
        let view = View::new(alloc, f)?;
        let mut stored = Vec::new(alloc);
        reserve(&mut stored, &view, 0)?;
        Ok(Ledger {
            sessions,
            stored,
            statements: Vec::new(alloc),
            scripts: Vec::new(alloc),
            asks: 0,
            turn: Turn::of_call(0),
            view,
        })
    }
}
