//! One run: threads that take turns at one value.
ghost use Rattle.std.specs.Prelude.{◌≡◌, ◌<◌, ◌≤◌, ◌^◌, All, IfOk, vec_len};
ghost use Rattle.hr_turn.specs.Passes.{id_of, lock_of, view_of, IsFree};

use crate::block::{Block, Padding};
use hr_turn::{Pass, TurnLock};
use std::alloc::{AllocError, Global};
use std::rt::Clock;
use std::sync::atomic::{AtomicU64, Ordering};
use std::sync::{Mutex, Wait};
use std::thread;
use std::thread::Threads;
use std::time::{Duration, Instant};

// So often a thread looks at the clock.
const TURNS_A_LOOK: u32 = 16;

/// So many threads take at most so many turns each, with so many steps of work after each. None begins before as many
/// as are awaited have come, and where there is a limit they end once it has passed.
#[derive(Clone, Copy)]
pub struct Load {
    pub threads: u32,
    pub turns: u32,
    pub steps: u64,
    pub awaited: u32,
    pub limit: Option<Limit>,
}

/// A length of time from some moment on.
#[derive(Clone, Copy)]
pub struct Limit {
    pub start: Instant,
    pub length: Duration,
}

// Whether the limit has passed, at a turn at which the clock is read.
fn is_over<R: Clock>(rt: &R, load: &Load, turn: u32) -> bool {
    match load.limit {
        Some(limit) if turn % TURNS_A_LOOK == 0 => {
            limit
                .start
                .elapsed(rt)
                .map_or(true, |passed| passed >= limit.length)
        }
        _ => false,
    }
}

// Comes to the start of a run, where so many have come already.
fn start<R: Wait>(rt: &R, come: &AtomicU64, load: &Load) {
    come.fetch_add(1, Ordering::SeqCst);
    'others: for _ in rt.forever() {
        if come.load(Ordering::SeqCst) >= u64::from(load.awaited) {
            return;
        }
        thread::yield_now();
    }
    unreachable!()
}

/// Some work, of a length that grows with `steps`. It ends in an atomic step, so that no compiler moves it.
pub fn work(done: &AtomicU64, steps: u64) {
    let mut x = 0x9E37_79B9_7F4A_7C15u64;
    for _ in 0..steps {
        x ^= x << 13;
        x ^= x >> 7;
        x ^= x << 17;
    }
    done.fetch_add(x, Ordering::SeqCst);
}

/// A run through a turn lock. Gives the turns that the value counted.
pub fn run_turn_lock<P: Padding, R: Threads + Wait + Clock + Sync>(
    rt: &R,
    alloc: Global,
    load: &Load,
) -> Result<u64, AllocError> {
    let (lock, mut root) = TurnLock::new(alloc, Block::<P>::new())?;
    let passes = split_off(alloc, &lock, &mut root, load.threads)?;
    let shared = &lock;
    let come = AtomicU64::new(0);
    let come = &come;
    thread::map_vec(
        rt,
        passes,
        &|pass: Pass<Block<P>>|
            requires { (lock_of pass ≡ id_of shared.now) × IsFree pass }
        {
            start(rt, come, load);
            take_turns(rt, shared, pass, load)
        },
    )?;
    let block = lock.enter(rt, &mut root);
    Ok(block.turns)
}

fn split_off<P: Padding>(
    alloc: Global,
    lock: &TurnLock<Block<P>>,
    root: &mut Pass<Block<P>>,
    count: u32,
) -> Result<Vec<Pass<Block<P>>>, AllocError>
    requires lock { lock_of root.old ≡ id_of lock.now }
    requires root { (view_of root.old).number ≡ 0 }
    requires splits { (view_of root.old).splits ≡ 0 }
    requires free { IsFree root.old }
    ensures root { (lock_of root.new ≡ lock_of root.old) × IsFree root.new }
    ensures passes { IfOk result (λ passes. All (λ pass. (lock_of pass ≡ id_of lock.now) × IsFree pass) passes.items) }
{
    let mut passes = Vec::new(alloc);
    'splits: for _index in 0..count {
        passes.push(lock.split(root))?;
    }
    Ok(passes)
}

fn take_turns<P: Padding, R: Wait + Clock>(
    rt: &R,
    lock: &TurnLock<Block<P>>,
    mut pass: Pass<Block<P>>,
    load: &Load,
)
    requires lock { lock_of pass ≡ id_of lock.now }
    requires free { IsFree pass }
{
    let done = AtomicU64::new(0);
    'turns: for turn in 0..load.turns {
        if is_over(rt, load, turn) {
            return;
        }
        let mut block = lock.enter(rt, &mut pass);
        block.add(1);
        lock.leave(&mut pass, block);
        work(&done, load.steps);
    }
}

/// The same run through a plain `Mutex`.
pub fn run_mutex<P: Padding, R: Threads + Wait + Clock + Sync>(
    rt: &R,
    alloc: Global,
    load: &Load,
) -> Result<u64, AllocError> {
    let lock = Mutex::new(Block::<P>::new());
    let shared = &lock;
    let come = AtomicU64::new(0);
    let come = &come;
    thread::map_indices(
        rt,
        alloc,
        load.threads as usize,
        &|_| {
            start(rt, come, load);
            lock_often(rt, shared, load)
        },
    )?;
    Ok(lock.into_inner().turns)
}

fn lock_often<P: Padding, R: Wait + Clock>(rt: &R, lock: &Mutex<Block<P>>, load: &Load) {
    let done = AtomicU64::new(0);
    for turn in 0..load.turns {
        if is_over(rt, load, turn) {
            return;
        }
        lock.lock(rt).add(1);
        work(&done, load.steps);
    }
}
