//! The type.
ghost use Rattle.std.specs.Prelude.{◌≡◌, ◌≤◌, [], replicate, IfOk};
ghost use Rattle.hr_core.specs.declared.seat.Seat.TheVariants as seat;

mod calls;
mod entering;
mod told;
mod turns;

use crate::seat::{Seat, Shown};
use hr_ledger::Ledger;
use std::alloc::{AllocError, Global};
use std::marker::Model;

/// The kept history, with what each session is told. Contracts see the history.
pub struct Core {
    ledger: Ledger,
    /// Session S stands at the place S - 1.
    seats: Vec<Seat>,
    /// Why transaction T was refused, if it was, stands at the place T - 1.
    causes: Vec<Option<Shown>>,
    suspects: u64,
}

impl Drop for Core {
    fn drop(self) {
        let Core {
            ledger: _ledger,
            seats: _seats,
            causes: _causes,
            suspects: _suspects,
        } = self;
    }
}

impl Model for Core {
    ghost use Rattle.hr_ledger.specs.Chronicle.{Chronicle};

    ghost Value = { Chronicle };

    // the code of conditions and expressions, which hold themselves
    ghost use Rattle.std.specs.Coded.{codes};
    ghost use Rattle.hr_rel.specs.contracts.expr.Pred as pred;
    ghost use Rattle.hr_rel.specs.contracts.expr.Expr as expr;

    ghost coded = { Prim.hlevel (codes, pred.the_row.coded, expr.the_row.coded) };

    ghost use Rattle.hr_core.specs.Told.{seen, IsTold};

    ghost view = { seen };

    ghost invariant = { IsTold };
}

impl Core {
    /// The core before anything happened.
    pub fn new(alloc: Global, f: u32, sessions: u32) -> Result<Core, AllocError>
        requires few { f ≤ 3 }
        ensures { IfOk result (λ core. core ≡ record { f = f; sessions = sessions; entries = [] }) }
    {
        Ok(Core {
            ledger: Ledger::new(alloc, f, sessions)?,
            seats: empty_seats(alloc, sessions)?,
            causes: Vec::new(alloc),
            suspects: 0,
        })
    }
}

// So many sessions that have asked for nothing.
fn empty_seats(alloc: Global, sessions: u32) -> Result<Vec<Seat>, AllocError>
    ensures { IfOk result (λ seats. seats.items ≡ replicate sessions seat.NothingAsked) }
{
    let mut seats = Vec::new(alloc);
    'sessions: for _ in 0..sessions {
        seats.push(Seat::NothingAsked)?;
    }
    Ok(seats)
}
