//! Whole runs of the shepherd, whose replicas are made up: each replies at once.
ghost use Rattle.std.specs.Prelude.{◌≡◌, ◌≤◌, ◌*◌, ℕ, Some, IfOk, IsTrue};
ghost use Rattle.hr_history.specs.declared.job.Job.TheVariants as jobs;
ghost use Rattle.hr_history.specs.declared.job.JobReply.TheVariants as replies;
ghost use Rattle.hr_history.specs.Faithful as history;

use hr_engine::{EndReply, RunReply, TxnId};
use hr_history::{Job, JobReply};
use hr_progress::{Phase, View};
use hr_rel::{Answer, DeleteStmt, Seq, Stmt};
use hr_shepherd::{Refusal, Shepherd};
use std::alloc::{AllocError, Global};

/// What a run is like.
#[derive(Clone, Copy)]
pub struct Load {
    /// There are 2f + 1 replicas.
    pub f: u32,
    pub sessions: u32,
    /// How many statements a transaction has.
    pub statements: u32,
    /// How many jobs a replica does in a round, at most.
    pub jobs: u32,
    pub replies: Replies,
}

/// What the replicas reply.
#[derive(Clone, Copy, Debug, PartialEq, Eq)]
pub enum Replies {
    /// All the same.
    Same,
    /// All the same, but the last replica is never given a job.
    LastLeftOut,
    /// The last one answers otherwise.
    LastLies,
    /// Statements are on one row, and wait for the transaction that has it.
    OneRow,
}

/// What came of a run.
#[derive(Clone, Copy)]
pub struct Ran {
    pub entries: usize,
    /// How many calls weren't refused, and each began a turn.
    pub calls: u64,
    pub commits: u64,
}

/// Rounds of sessions and replicas, until the history has so many entries: each session makes one call, and each replica does
/// its jobs.
pub fn run(alloc: Global, load: &Load, entries: usize) -> Result<Ran, Refusal>
    requires { load.now.f ≤ 3 }
{
    let mut shepherd = Shepherd::new(alloc, load.f, load.sessions)?;
    let mut newest = nobody(alloc, load.sessions)?;
    let mut rows = [0; 7];
    let mut calls: u64 = 0;
    'rounds: for _ in 0..entries {
        let asked = ask_all(alloc, &mut shepherd, &mut newest, load.statements)?;
        let worked = work_all(alloc, &mut shepherd, &mut rows, load)?;
        calls = calls.saturating_add(asked).saturating_add(worked);
        if shepherd.history().len() >= entries {
            break;
        }
    }
    Ok(Ran {
        entries: shepherd.history().len(),
        calls,
        commits: shepherd.commits(),
    })
}

// ---- sessions

// No session has a transaction; no transaction has the number 0.
fn nobody(alloc: Global, sessions: u32) -> Result<Vec<TxnId>, AllocError> {
    let mut newest = Vec::new(alloc);
    'sessions: for _ in 0..sessions {
        newest.push(0)?;
    }
    Ok(newest)
}

// How many sessions made a call.
fn ask_all(
    alloc: Global,
    shepherd: &mut Shepherd,
    newest: &mut [TxnId],
    statements: u32,
) -> Result<u64, Refusal> {
    let mut asked: u64 = 0;
    let mut session: u32 = 0;
    'sessions: for place in 0..newest.len() {
        session = session.saturating_add(1);
        let made = ask(alloc, shepherd, session, &mut newest[place], statements)?;
        asked = asked.saturating_add(u64::from(made));
    }
    Ok(asked)
}

// What a session calls next.
enum Next {
    Begin,
    Submit,
    AskCommit,
    Wait,
}

fn next_of(view: &View, txn: TxnId, statements: u32) -> Next {
    match view.phase(txn) {
        Phase::Active if view.given(txn) < view.statements(txn) => Next::Wait,
        Phase::Active if view.statements(txn) < statements => Next::Submit,
        Phase::Active => Next::AskCommit,
        Phase::Asked(_) => Next::Wait,
        Phase::Logged(_) | Phase::RolledBack | Phase::Refused => Next::Begin,
    }
}

// A session makes its next call, if it doesn't wait. Whether it did.
fn ask(
    alloc: Global,
    shepherd: &mut Shepherd,
    session: u32,
    newest: &mut TxnId,
    statements: u32,
) -> Result<bool, Refusal> {
    let caller = caller_of(shepherd, session);
    match next_of(shepherd.view(), *newest, statements) {
        Next::Begin => *newest = begin(alloc, shepherd, session)?,
        Next::Submit => {
            shepherd.submit(caller, *newest, statement())?;
        }
        Next::AskCommit => shepherd.ask_commit(caller, *newest)?,
        Next::Wait => return Ok(false),
    }
    Ok(true)
}

fn begin(alloc: Global, shepherd: &mut Shepherd, session: u32) -> Result<TxnId, Refusal> {
    if session < 1 || session > shepherd.sessions() {
        return Ok(0);
    }
    let caller = caller_of(shepherd, session);
    shepherd.begin(alloc, caller, session)
}

fn caller_of(shepherd: &Shepherd, session: u32) -> u64
    ensures { result ≡ history.session_caller shepherd.now.f session }
{
    2 * shepherd.f() as u64 + 1 + session as u64
}

fn statement() -> Stmt {
    Stmt::Delete(DeleteStmt {
        table: 0,
        filter: None,
    })
}

// ---- replicas

// How many calls replicas made, two for a job. At each, `rows` has the transaction that has the one row there, or 0.
fn work_all(
    alloc: Global,
    shepherd: &mut Shepherd,
    rows: &mut [TxnId],
    load: &Load,
) -> Result<u64, Refusal> {
    let mut made: u64 = 0;
    let mut next: u32 = 0;
    'replicas: for place in 0..rows.len() {
        let replica = next;
        next = next.saturating_add(1);
        let worked = work_on(alloc, shepherd, replica, &mut rows[place], load)?;
        made = made.saturating_add(worked);
    }
    Ok(made)
}

// A replica's jobs of a round. How many calls it made.
fn work_on(
    alloc: Global,
    shepherd: &mut Shepherd,
    replica: u32,
    row: &mut TxnId,
    load: &Load,
) -> Result<u64, Refusal> {
    let mut made: u64 = 0;
    'jobs: for _ in 0..load.jobs {
        if !work(alloc, shepherd, replica, row, load.replies)? {
            break;
        }
        made = made.saturating_add(2);
    }
    Ok(made)
}

// A replica is given its job, and replies. Whether it had one.
fn work(
    alloc: Global,
    shepherd: &mut Shepherd,
    replica: u32,
    row: &mut TxnId,
    replies: Replies,
) -> Result<bool, Refusal> {
    let last = 2 * u64::from(shepherd.f());
    let is_last = u64::from(replica) == last;
    if u64::from(replica) > last || is_last && replies == Replies::LastLeftOut {
        return Ok(false);
    }
    let lies = is_last && replies == Replies::LastLies;
    let is_one_row = replies == Replies::OneRow;
    match shepherd.take_job(alloc, replica as u64 + 1, replica)? {
        Some(_) => {
            reply(alloc, shepherd, replica, row, is_one_row, lies)?;
            Ok(true)
        }
        None => Ok(false),
    }
}

// It replies to the job that is out, if one is.
fn reply(
    alloc: Global,
    shepherd: &mut Shepherd,
    replica: u32,
    row: &mut TxnId,
    is_one_row: bool,
    lies: bool,
) -> Result<(), AllocError>
    requires { replica ≤ 2 * shepherd.old.f }
{
    if let Some(job) = shepherd.job_out(replica) {
        let reply = reply_to(alloc, job, row, is_one_row, lies)?;
        shepherd.give(replica as u64 + 1, replica, reply);
    }
    Ok(())
}

fn reply_to(
    alloc: Global,
    job: Job,
    row: &mut TxnId,
    is_one_row: bool,
    lies: bool,
) -> Result<JobReply, AllocError>
    ensures { IfOk result (λ reply. IsTrue (history.fits_job reply (Some job))) }
{
    match job {
        Job::Run(txn, _) => {
            let told = answer(alloc, txn, row, is_one_row, lies)?;
            Ok(JobReply::Ran(told))
        }
        Job::Commit(txn) | Job::Rollback(txn) => {
            *row = freed(*row, txn);
            Ok(JobReply::Ended(EndReply::Done))
        }
        Job::Restart => Ok(JobReply::StillLost),
    }
}

// What it replies to a run: it waits for the one that has the row, or its statement changed a row; one that lies tells two.
fn answer(
    alloc: Global,
    txn: TxnId,
    row: &mut TxnId,
    is_one_row: bool,
    lies: bool,
) -> Result<RunReply, AllocError>
    ensures { IfOk result (λ told. (t i : ℕ) → IsTrue (history.fits_job (replies.Ran told) (Some (jobs.Run t i)))) }
{
    if is_one_row && *row != 0 && *row != txn {
        let mut named = Seq::new(alloc);
        named.push(*row)?;
        return Ok(RunReply::Blocked(named));
    }
    *row = txn;
    Ok(RunReply::Done(Answer::Count(if lies { 2 } else { 1 })))
}

// The row is free once its transaction has ended.
fn freed(row: TxnId, ended: TxnId) -> TxnId {
    if row == ended { 0 } else { row }
}
