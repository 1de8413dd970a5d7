//! The replicas at work.
ghost use Rattle.std.specs.Prelude.{◌≡◌, ◌≤◌, ◌*◌};

use crate::fault::Fault;
use hr_engine::{Backend, Lost};
use hr_history::{Job, JobReply};
use hr_shepherd::Shepherd;
use std::alloc::Global;

/// Each replica does one job after another, until none has one that it may be given.
pub fn run_all<B: Backend>(
    alloc: Global,
    shepherd: &mut Shepherd,
    backends: &mut [B],
) -> Result<(), Fault> {
    'rounds: for _ in 0..100 {
        if !run_each(alloc, shepherd, backends)? {
            break;
        }
    }
    Ok(())
}

// Each replica does one job, if it has one. Whether one did.
fn run_each<B: Backend>(
    alloc: Global,
    shepherd: &mut Shepherd,
    backends: &mut [B],
) -> Result<bool, Fault> {
    let mut worked = false;
    'replicas: for replica in 0..7 {
        let place = replica as usize;
        if place < backends.len() {
            worked |= work(alloc, shepherd, replica, &mut backends[place])?;
        }
    }
    Ok(worked)
}

// A replica is given its job, does it, and replies. Whether it had one.
fn work<B: Backend>(
    alloc: Global,
    shepherd: &mut Shepherd,
    replica: u32,
    backend: &mut B,
) -> Result<bool, Fault> {
    if replica as u64 > 2 * shepherd.f() as u64 {
        return Ok(false);
    }
    let caller = replica as u64 + 1;
    match shepherd.take_job(alloc, caller, replica)? {
        Some(_) => {
            reply(alloc, shepherd, replica, backend);
            Ok(true)
        }
        None => Ok(false),
    }
}

// It does the job that is out, and replies.
fn reply<B: Backend>(alloc: Global, shepherd: &mut Shepherd, replica: u32, backend: &mut B)
    requires { replica ≤ 2 * shepherd.old.f }
{
    let caller = replica as u64 + 1;
    match shepherd.job_out(replica) {
        Some(Job::Run(txn, _)) => {
            if let Some(stmt) = shepherd.statement_out(replica) {
                let told = backend.run(alloc, txn, stmt);
                shepherd.give(caller, replica, JobReply::Ran(told));
            }
        }
        Some(Job::Commit(txn)) => {
            let told = backend.commit(txn);
            shepherd.give(caller, replica, JobReply::Ended(told));
        }
        Some(Job::Rollback(txn)) => {
            let told = backend.rollback(txn);
            shepherd.give(caller, replica, JobReply::Ended(told));
        }
        Some(Job::Restart) => match backend.restart() {
            Ok(count) => shepherd.restarted(caller, replica, count),
            Err(Lost) => shepherd.give(caller, replica, JobReply::StillLost),
        },
        None => {}
    }
}
