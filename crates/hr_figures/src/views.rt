//! Views to look at.
ghost use Rattle.std.specs.Prelude.{◌≡◌, ◌≤◌, ◌+◌, ◌^◌, ◌<◌};
ghost use Rattle.hr_history.specs.Processed.{phase_in};
ghost use Rattle.hr_history.specs.Transactions as history;

use hr_base::limits::MAX_STATEMENTS;
use hr_engine::TxnId;
use hr_progress::{Phase, View};
use std::alloc::{AllocError, Global};

/// What a view has.
#[derive(Clone, Copy)]
pub struct Size {
    /// There are 2f + 1 replicas.
    pub f: u32,
    /// Transactions that were refused, before the others began.
    pub finished: u32,
    /// Open transactions of which a statement was submitted and isn't answered yet.
    pub open: u32,
}

/// A view of this size, with one open transaction more, whose commit was asked for before it had any statement.
pub fn view_of(alloc: Global, size: &Size) -> Result<View, AllocError>
    requires { size.now.f ≤ 3 }
{
    let mut view = View::new(alloc, size.f)?;
    finish(alloc, &mut view, size.finished)?;
    for _ in 0..size.open {
        view.begin(alloc, 1)?;
        submit(&mut view)?;
    }
    view.begin(alloc, 1)?;
    ask(&mut view);
    Ok(view)
}

/// So many transactions begin, and are refused.
pub fn finish(alloc: Global, view: &mut View, count: u32) -> Result<(), AllocError> {
    for _ in 0..count {
        view.begin(alloc, 1)?;
        refuse(view);
    }
    Ok(())
}

/// The open transaction that began last, if one is open.
pub fn newest(view: &View) -> Option<TxnId> {
    view.opened().last().copied()
}

// Refuses the newest one.
fn refuse(view: &mut View) {
    if let Some(txn) = newest(view) {
        if is_open(view.phase(txn)) {
            view.refuse(txn);
        }
    }
}

/// Submits a statement of the newest one.
pub fn submit(view: &mut View) -> Result<(), AllocError> {
    if let Some(txn) = newest(view) {
        if is_open(view.phase(txn)) && view.statements(txn) < MAX_STATEMENTS {
            view.submit(txn)?;
        }
    }
    Ok(())
}

// Asks for the commit of the newest one, which is the first that is asked for.
fn ask(view: &mut View) {
    if let Some(txn) = newest(view) {
        if is_open(view.phase(txn)) {
            view.ask_commit(txn, 0);
        }
    }
}

fn is_open(phase: Phase) -> bool
    ensures { result ≡ history.is_open phase }
{
    match phase {
        Phase::Active | Phase::Asked(_) => true,
        Phase::Logged(_) | Phase::RolledBack | Phase::Refused => false,
    }
}
