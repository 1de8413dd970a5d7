//! Rows, call by call.

use crate::calls::{
    ask_commit, ask_rollback, begin, collect, ending, give, restarted, submit, suspect, take,
    take_job,
};
use crate::entry::print_entries;
use crate::told::Told;
use hr_engine::TxnId;
use hr_shepherd::Shepherd;
use std::io;

/// A call.
#[derive(Clone, Copy, Debug)]
pub enum Step {
    /// A session begins a transaction.
    Begin(u32),
    /// A session submits a statement of a transaction, on this table.
    Submit(u32, TxnId, u32),
    AskCommit(u32, TxnId),
    AskRollback(u32, TxnId),
    /// A replica is given its job, with its statement.
    Take(u32),
    /// A replica is given its job; its statement is lent.
    TakeJob(u32),
    Give(u32, Told),
    /// A replica is restarted, and tells how many commits it has made.
    Restarted(u32, u64),
    /// This caller suspects the primary.
    Suspect(u64),
    /// What a session is told.
    Collect(u32),
    /// How a transaction ended.
    Ending(TxnId),
}

/// The calls of a row, on a shepherd that may have come some way.
pub fn play_row<R: Print + AllocGlobal>(
    rt: &R,
    shepherd: &mut Shepherd,
    name: &str,
    steps: &[Step],
) -> io::Result<()> {
    println!(rt; "{name}")?;
    'steps: for step in steps {
        play(rt, shepherd, *step)?;
    }
    print_end(rt, shepherd)
}

/// How far a history has come.
pub fn print_end<R: Print>(rt: &R, shepherd: &Shepherd) -> io::Result<()> {
    println!(rt;
        "{} entries, {} commits, {} suspects, primary {:?}",
        shepherd.history().len(),
        shepherd.commits(),
        shepherd.suspects(),
        shepherd.primary()
    )
}

// A call, its answer, and the entries that it added.
fn play<R: Print + AllocGlobal>(rt: &R, shepherd: &mut Shepherd, step: Step) -> io::Result<()> {
    let before = shepherd.history().len();
    print!(rt; "{step:?}: ")?;
    call(rt, shepherd, step)?;
    print_entries(rt, shepherd, before)
}

fn call<R: Print + AllocGlobal>(rt: &R, shepherd: &mut Shepherd, step: Step) -> io::Result<()> {
    match step {
        Step::Begin(session) => begin(rt, shepherd, session),
        Step::Submit(session, txn, table) => submit(rt, shepherd, session, txn, table),
        Step::AskCommit(session, txn) => ask_commit(rt, shepherd, session, txn),
        Step::AskRollback(session, txn) => ask_rollback(rt, shepherd, session, txn),
        Step::Take(replica) => take(rt, shepherd, replica),
        Step::TakeJob(replica) => take_job(rt, shepherd, replica),
        Step::Give(replica, told) => give(rt, shepherd, replica, told),
        Step::Restarted(replica, count) => restarted(rt, shepherd, replica, count),
        Step::Suspect(caller) => suspect(rt, shepherd, caller),
        Step::Collect(session) => collect(rt, shepherd, session),
        Step::Ending(txn) => ending(rt, shepherd, txn),
    }
}
