//! What is printed of the turn lock.
ghost use Rattle.std.specs.Prelude.{◌<◌, ◌^◌};

use crate::block::Padding;
use crate::turns::{Limit, Load, run_mutex, run_turn_lock, work};
use std::io;
use std::rt::Clock;
use std::sync::Wait;
use std::sync::atomic::AtomicU64;
use std::thread::Threads;
use std::time::{Duration, Instant};

// The length of one run that is timed.
const RUN_MILLIS: u64 = 250;

// Steps of work that are timed, for the length of one.
const TRIED_STEPS: u64 = 1 << 20;

// Of so many runs the best is told.
const RUNS: u32 = 5;

const WORK_NANOS: u64 = 9_000;

/// How many turns short runs take.
pub fn print_counts<R: Threads + Wait + Sync + Print + AllocGlobal + Clock>(
    rt: &R,
) -> io::Result<()> {
    print_count(rt, 1, 600)?;
    print_count(rt, 2, 300)?;
    print_count(rt, 4, 150)
}

fn print_count<R: Threads + Wait + Sync + Print + AllocGlobal + Clock>(
    rt: &R,
    threads: u32,
    turns: u32,
) -> io::Result<()> {
    let load = Load {
        threads,
        turns,
        steps: 10,
        awaited: 0,
        limit: None,
    };
    let small = run_turn_lock::<(), R>(rt, rt.alloc(), &load)?;
    let large = run_turn_lock::<[u64; 62], R>(rt, rt.alloc(), &load)?;
    let mutex = run_mutex::<(), R>(rt, rt.alloc(), &load)?;
    println!(rt; "{threads} threads: {small} turns at 8 bytes, {large} at 504, {mutex} of a mutex")
}

/// How long a turn takes, in nanoseconds.
pub fn print_times<R: Threads + Wait + Sync + Print + AllocGlobal + Clock>(
    rt: &R,
) -> io::Result<()> {
    let steps = steps_of(rt, WORK_NANOS)?;
    for threads in [1, 2, 3, 4, 8, 64] {
        print_time::<(), R>(rt, "8 bytes", threads, 0)?;
        print_time::<(), R>(rt, "8 bytes", threads, steps)?;
    }
    for threads in [1, 2, 4] {
        print_time::<[u64; 9], R>(rt, "80 bytes", threads, 0)?;
        print_time::<[u64; 62], R>(rt, "504 bytes", threads, 0)?;
    }
    Ok(())
}

// How many steps of work take so many nanoseconds, by the best of five tries.
fn steps_of<R: Clock>(rt: &R, nanos: u64) -> io::Result<u64>
    requires { nanos < 2 ^ 32 }
{
    let mut best = u64::MAX;
    for _ in 0..5 {
        let start = Instant::now(rt)?;
        work(&AtomicU64::new(0), TRIED_STEPS);
        let taken = u64::try_from(start.elapsed(rt)?.as_nanos()).unwrap_or(u64::MAX);
        best = best.min(taken);
    }
    Ok(nanos * TRIED_STEPS / best.max(1))
}

fn print_time<P: Padding, R: Threads + Wait + Sync + Print + AllocGlobal + Clock>(
    rt: &R,
    size: &str,
    threads: u32,
    steps: u64,
) -> io::Result<()> {
    let mut turn_lock = u64::MAX;
    let mut mutex = u64::MAX;
    for _ in 0..RUNS {
        let load = timed(rt, threads, steps)?;
        let turns = run_turn_lock::<P, R>(rt, rt.alloc(), &load)?;
        turn_lock = turn_lock.min(nanos_a_turn(rt, &load, turns)?);
        let load = timed(rt, threads, steps)?;
        let turns = run_mutex::<P, R>(rt, rt.alloc(), &load)?;
        mutex = mutex.min(nanos_a_turn(rt, &load, turns)?);
    }
    let between = if steps == 0 {
        "back to back"
    } else {
        "9 us of work"
    };
    println!(rt; "{size}, {between}, {threads} threads: {turn_lock} ns a turn, {mutex} of a mutex")
}

// A run that begins now.
fn timed<R: Clock>(rt: &R, threads: u32, steps: u64) -> io::Result<Load> {
    let limit = Limit {
        start: Instant::now(rt)?,
        length: Duration::from_millis(RUN_MILLIS),
    };
    Ok(Load {
        threads,
        turns: u32::MAX,
        steps,
        awaited: threads,
        limit: Some(limit),
    })
}

fn nanos_a_turn<R: Clock>(rt: &R, load: &Load, turns: u64) -> io::Result<u64> {
    let Some(limit) = load.limit else {
        return Ok(0);
    };
    let taken = limit.start.elapsed(rt)?.as_nanos() / u128::from(turns.max(1));
    Ok(u64::try_from(taken).unwrap_or(u64::MAX))
}
