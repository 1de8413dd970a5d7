//! How many statements may be submitted, in a transaction and at all.

use crate::calls::{caller_of, delete_from, is_replica, is_session};
use crate::play::play_row;
use crate::rows::{HISTORY_LIMIT, STATEMENT_LIMIT};
use crate::told::{Told, fits, reply};
use hr_engine::TxnId;
use hr_shepherd::Shepherd;
use std::alloc::{AllocError, Global};
use std::io;

/// A transaction's last statement, after 99 others.
pub fn print_statement_limit<R: Print + AllocGlobal>(rt: &R) -> io::Result<()> {
    let mut shepherd = Shepherd::new(rt.alloc(), 0, 1)?;
    fill(rt.alloc(), &mut shepherd, 1, 99)?;
    play_row(rt, &mut shepherd, "statement_limit", &STATEMENT_LIMIT)
}

/// One statement more, after 4,000 of 40 transactions.
pub fn print_history_limit<R: Print + AllocGlobal>(rt: &R) -> io::Result<()> {
    let mut shepherd = Shepherd::new(rt.alloc(), 0, 41)?;
    'sessions: for before in 0..40 {
        fill(rt.alloc(), &mut shepherd, before + 1, 100)?;
    }
    play_row(rt, &mut shepherd, "history_limit", &HISTORY_LIMIT)
}

// A session begins a transaction, and gets answers to so many statements. Nothing is printed.
fn fill(
    alloc: Global,
    shepherd: &mut Shepherd,
    session: u32,
    statements: u32,
) -> Result<(), AllocError> {
    if !is_session(shepherd, session) {
        return Ok(());
    }
    let caller = caller_of(shepherd, session);
    let Ok(txn) = shepherd.begin(alloc, caller, session) else {
        return Ok(());
    };
    'statements: for _ in 0..statements {
        ask(alloc, shepherd, session, txn)?;
    }
    Ok(())
}

// A session submits a statement, and the primary answers it.
fn ask(alloc: Global, shepherd: &mut Shepherd, session: u32, txn: TxnId) -> Result<(), AllocError> {
    let caller = caller_of(shepherd, session);
    match shepherd.submit(caller, txn, delete_from(7)) {
        Ok(_) => answer(alloc, shepherd),
        Err(_) => Ok(()),
    }
}

fn answer(alloc: Global, shepherd: &mut Shepherd) -> Result<(), AllocError> {
    if !is_replica(shepherd, 0) {
        return Ok(());
    }
    match shepherd.take_job(alloc, 1, 0) {
        Ok(Some(_)) => give(alloc, shepherd),
        Ok(None) | Err(_) => Ok(()),
    }
}

fn give(alloc: Global, shepherd: &mut Shepherd) -> Result<(), AllocError> {
    if is_replica(shepherd, 0) && fits(Told::Wrote, shepherd.job_out(0)) {
        shepherd.give(1, 0, reply(alloc, Told::Wrote)?);
    }
    Ok(())
}
