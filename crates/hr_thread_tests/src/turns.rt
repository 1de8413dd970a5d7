//! Callers that share one turn lock.
ghost use Rattle.std.specs.Prelude.{◌≡◌, ◌++◌, [], ◌∷◌, OnOk, IfOk};
ghost use Rattle.hr_turn.specs.Entries.{calls_by};
ghost use Rattle.hr_turn.specs.Passes.{id_of, lock_of, view_of, IsFree};
ghost use Rattle.hr_thread_tests.specs.Numbered.{first_calls, HasCalled};

use crate::calls::{Call, Calls};
use hr_turn::{Pass, TurnLock};
use std::alloc::{AllocError, Global};
use std::sync::Wait;
use std::thread;
use std::thread::Threads;

/// One call, in a turn of its own.
pub fn make_call<R: Wait>(
    rt: &R,
    lock: &TurnLock<Calls>,
    pass: &mut Pass<Calls>,
    call: Call,
) -> Result<(), AllocError>
    requires lock { lock_of pass.old ≡ id_of lock.now }
    requires free { IsFree pass.old }
    requires caller { call.caller ≡ (view_of pass.old).number }
    ensures lock { lock_of pass.new ≡ lock_of pass.old }
    ensures free { IsFree pass.new }
    ensures number { (view_of pass.new).number ≡ (view_of pass.old).number }
    ensures mine { OnOk result ((view_of pass.new).mine ≡ (view_of pass.old).mine ++ call ∷ []) }
{
    let mut calls = lock.enter(rt, pass);
    let added = calls.add(call);
    lock.leave(pass, calls);
    added
}

/// So many calls, each in a turn of its own.
pub fn make_calls<R: Wait>(
    rt: &R,
    lock: &TurnLock<Calls>,
    mut pass: Pass<Calls>,
    caller: u64,
    count: u64,
) -> Result<Pass<Calls>, AllocError>
    requires { HasCalled caller 0 lock.now pass }
    ensures { IfOk result (λ p. HasCalled caller count lock.now p) }
{
    'calls: for index in 0..count {
        make_call(rt, lock, &mut pass, Call { caller, index })?;
    }
    Ok(pass)
}

/// Two callers at once. The list that is left has the calls of each, in order.
pub fn two_callers<R: Threads + Wait + Sync>(
    rt: &R,
    alloc: Global,
    count: u64,
) -> Result<Vec<Call>, AllocError>
    ensures first { IfOk result (λ calls. calls_by (λ call. call.caller) 1 calls.items ≡ first_calls 1 count) }
    ensures second { IfOk result (λ calls. calls_by (λ call. call.caller) 2 calls.items ≡ first_calls 2 count) }
{
    let calls = Calls {
        made: Vec::new(alloc),
    };
    let (lock, mut root) = TurnLock::new(alloc, calls)?;
    let first = lock.split(&mut root);
    let second = lock.split(&mut root);
    let shared = &lock;
    let (first, second) = thread::join(
        rt,
        move || -> Result<Pass<Calls>, AllocError>
            requires { HasCalled 1 0 shared.now first }
            ensures { IfOk result (λ p. HasCalled 1 count shared.entry.now p) }
        { make_calls(rt, shared, first, 1, count) },
        move || -> Result<Pass<Calls>, AllocError>
            requires { HasCalled 2 0 shared.now second }
            ensures { IfOk result (λ p. HasCalled 2 count shared.entry.now p) }
        { make_calls(rt, shared, second, 2, count) },
    );
    lock.join(&mut root, first?);
    lock.join(&mut root, second?);
    Ok(lock.close(root).made)
}
