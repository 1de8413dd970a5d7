//! Calls, each with its answer. What a call wants known is looked at before it.
ghost use Rattle.std.specs.Prelude.{◌≡◌, ◌≤◌, ◌*◌, true};
ghost use Rattle.hr_history.specs.Faithful as history;
ghost use Rattle.hr_history.specs.Replicas.{out_at};
ghost use Rattle.hr_ledger.specs.Chronicle.{history_in};

use crate::entry::print_table;
use crate::reply::{print_ending, print_reply};
use crate::told::{Told, fits, reply};
use hr_engine::TxnId;
use hr_history::Job;
use hr_rel::{DeleteStmt, Stmt};
use hr_shepherd::Shepherd;
use std::io;

// ---- of sessions

pub fn begin<R: Print + AllocGlobal>(
    rt: &R,
    shepherd: &mut Shepherd,
    session: u32,
) -> io::Result<()> {
    if !is_session(shepherd, session) {
        return println!(rt; "no such session");
    }
    let caller = caller_of(shepherd, session);
    let begun = shepherd.begin(rt.alloc(), caller, session);
    println!(rt; "{begun:?}")
}

pub fn submit<R: Print>(
    rt: &R,
    shepherd: &mut Shepherd,
    session: u32,
    txn: TxnId,
    table: u32,
) -> io::Result<()> {
    let caller = caller_of(shepherd, session);
    let submitted = shepherd.submit(caller, txn, delete_from(table));
    println!(rt; "{submitted:?}")
}

pub fn ask_commit<R: Print>(
    rt: &R,
    shepherd: &mut Shepherd,
    session: u32,
    txn: TxnId,
) -> io::Result<()> {
    let caller = caller_of(shepherd, session);
    let asked = shepherd.ask_commit(caller, txn);
    println!(rt; "{asked:?}")
}

pub fn ask_rollback<R: Print>(
    rt: &R,
    shepherd: &mut Shepherd,
    session: u32,
    txn: TxnId,
) -> io::Result<()> {
    let caller = caller_of(shepherd, session);
    let asked = shepherd.ask_rollback(caller, txn);
    println!(rt; "{asked:?}")
}

pub fn collect<R: Print + AllocGlobal>(
    rt: &R,
    shepherd: &Shepherd,
    session: u32,
) -> io::Result<()> {
    if !is_session(shepherd, session) {
        return println!(rt; "no such session");
    }
    match shepherd.collect(rt.alloc(), session)? {
        Some(reply) => print_reply(rt, &reply),
        None => println!(rt; "None"),
    }
}

pub fn ending<R: Print + AllocGlobal>(rt: &R, shepherd: &Shepherd, txn: TxnId) -> io::Result<()> {
    match shepherd.ending(rt.alloc(), txn)? {
        Some(ending) => print_ending(rt, &ending),
        None => println!(rt; "None"),
    }
}

// ---- of replicas

pub fn take<R: Print + AllocGlobal>(
    rt: &R,
    shepherd: &mut Shepherd,
    replica: u32,
) -> io::Result<()> {
    if !is_replica(shepherd, replica) {
        return println!(rt; "no such replica");
    }
    match shepherd.take(rt.alloc(), replica as u64 + 1, replica) {
        Ok(Some(order)) => print_order(rt, order.job, order.stmt.as_ref()),
        Ok(None) => println!(rt; "None"),
        Err(refusal) => println!(rt; "{refusal:?}"),
    }
}

pub fn take_job<R: Print + AllocGlobal>(
    rt: &R,
    shepherd: &mut Shepherd,
    replica: u32,
) -> io::Result<()> {
    if !is_replica(shepherd, replica) {
        return println!(rt; "no such replica");
    }
    match shepherd.take_job(rt.alloc(), replica as u64 + 1, replica) {
        Ok(Some(job)) => print_taken(rt, shepherd, replica, job),
        Ok(None) => println!(rt; "None"),
        Err(refusal) => println!(rt; "{refusal:?}"),
    }
}

fn print_taken<R: Print>(rt: &R, shepherd: &Shepherd, replica: u32, job: Job) -> io::Result<()> {
    if !is_replica(shepherd, replica) {
        return Ok(());
    }
    print_order(rt, job, shepherd.statement_out(replica))
}

fn print_order<R: Print>(rt: &R, job: Job, stmt: Option<&Stmt>) -> io::Result<()> {
    print!(rt; "{job:?}")?;
    if let Some(stmt) = stmt {
        print_table(rt, stmt)?;
    }
    println!(rt; "")
}

pub fn give<R: Print + AllocGlobal>(
    rt: &R,
    shepherd: &mut Shepherd,
    replica: u32,
    told: Told,
) -> io::Result<()> {
    if !is_replica(shepherd, replica) || !fits(told, shepherd.job_out(replica)) {
        return println!(rt; "no such job is out");
    }
    let reply = reply(rt.alloc(), told)?;
    shepherd.give(replica as u64 + 1, replica, reply);
    println!(rt; "given")
}

pub fn restarted<R: Print>(
    rt: &R,
    shepherd: &mut Shepherd,
    replica: u32,
    count: u64,
) -> io::Result<()> {
    if !is_replica(shepherd, replica) || !is_restart(shepherd.job_out(replica)) {
        return println!(rt; "no such job is out");
    }
    shepherd.restarted(replica as u64 + 1, replica, count);
    println!(rt; "restarted")
}

pub fn suspect<R: Print>(rt: &R, shepherd: &mut Shepherd, caller: u64) -> io::Result<()> {
    let suspected = shepherd.suspect(caller);
    println!(rt; "{suspected:?}")
}

// ---- what calls want known

/// Whether there is such a session.
pub fn is_session(shepherd: &Shepherd, session: u32) -> bool
    ensures { result ≡ true → (1 ≤ session) × (session ≤ shepherd.now.sessions) }
{
    1 <= session && session <= shepherd.sessions()
}

/// The caller's number of a session.
pub fn caller_of(shepherd: &Shepherd, session: u32) -> u64
    ensures { result ≡ history.session_caller shepherd.now.f session }
{
    2 * shepherd.f() as u64 + 1 + session as u64
}

/// Whether there is such a replica.
pub fn is_replica(shepherd: &Shepherd, replica: u32) -> bool
    ensures { result ≡ true → replica ≤ 2 * shepherd.now.f }
{
    replica as u64 <= 2 * shepherd.f() as u64
}

fn is_restart(out: Option<Job>) -> bool
    ensures { result ≡ history.is_restart out }
{
    match out {
        Some(Job::Restart) => true,
        _ => false,
    }
}

/// A statement, told by its table.
pub fn delete_from(table: u32) -> Stmt {
    Stmt::Delete(DeleteStmt {
        table,
        filter: None,
    })
}
