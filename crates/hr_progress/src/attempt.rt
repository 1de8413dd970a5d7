//! A transaction at a replica, as the view keeps it.
ghost use Rattle.std.specs.Prelude.{◌≡◌, ◌≤◌, ◌<◌, ℕ, None, Some, [], ◌∷◌, ◌++◌, if◌then◌else◌, vec_len, vec_capacity, length, map, nat_eq, unwrap_or, OnOk, OnErr};
ghost use Rattle.std.specs.Map.{lookup};
ghost use Rattle.std.specs.Option.{option_map};
ghost use Rattle.hr_base.specs.Lists.{is_empty, numbered};
ghost use Rattle.hr_base.specs.declared.limits.TheConstants.{MAX_SUBMITS};
ghost use Rattle.hr_progress.specs.declared.attempt.Told.{Told};
ghost use Rattle.hr_progress.specs.Kept.{IsRoomy, HasAnswerRoom};
ghost use Rattle.hr_progress.specs.Plain.{plain_attempt, plain_entry, plain_attempt_in, idle_attempt, and_entry, with_entry, to_preempted, to_answered, to_waiting, to_idle, to_idle_entry};

use hr_base::limits::MAX_SUBMITS;
use hr_engine::TxnId;
use indexmap::IndexMap;
use std::alloc::{AllocError, Global};

/// A transaction at a replica.
pub struct Attempt {
    pub answers: Vec<Told>,
    /// The place among the replies of the first answer of the attempt, where it has one.
    pub began: usize,
    /// The place among the replies of the last one that told of waits, where no answer came after it.
    pub last: Option<usize>,
    /// There is something to roll back.
    pub touched: bool,
    /// It is to be rolled back here, and to run again.
    pub preempted: bool,
}

impl Drop for Attempt {
    fn drop(self) {
        let Attempt {
            answers: _answers,
            began: _began,
            last: _last,
            touched: _touched,
            preempted: _preempted,
        } = self;
    }
}

/// An answer of an attempt.
#[derive(Clone, Copy, Debug, PartialEq, Eq)]
pub struct Told {
    /// The place of the answer among the replies.
    pub reply: usize,
    /// The place in the history of the Give that told it.
    pub at: u64,
}

/// Where in the history the answer with this number, from 1, of an attempt was told; 0 where it has none.
pub fn told_place(told: &[Told], index: u32) -> u64
    ensures { result ≡ unwrap_or (option_map (λ (t : Told). t.at) (numbered told.now index)) 0 }
{
    if index == 0 {
        return 0;
    }
    match told.get((index - 1) as usize) {
        Some(told) => told.at,
        None => 0,
    }
}

/// How many statements of a transaction are answered in its attempt.
pub fn answered(attempts: &IndexMap<TxnId, Attempt>, txn: TxnId) -> usize
    ensures { result ≡ length (plain_attempt_in (map plain_entry attempts.now.entries) txn).answers }
{
    match attempts.get(&txn) {
        Some(attempt) => attempt.answers.len(),
        None => 0,
    }
}

/// A transaction is to be rolled back, and to run again.
pub fn preempt(attempts: &mut IndexMap<TxnId, Attempt>, txn: TxnId)
    ensures value { map plain_entry attempts.new.entries ≡ with_entry txn to_preempted (map plain_entry attempts.old.entries) }
    ensures room { (t : ℕ) → HasAnswerRoom t attempts.old.entries → HasAnswerRoom t attempts.new.entries }
{
    if let Some(place) = attempts.get_index_of(&txn) {
        let attempt = &mut attempts[place];
        attempt.preempted = true;
    }
}

/// One statement more is answered. The newest reply has this place, and the answer stands at its own or at an earlier one.
pub fn answer(attempts: &mut IndexMap<TxnId, Attempt>, txn: TxnId, told: Told, newest: usize)
    requires { HasAnswerRoom txn attempts.old.entries }
    ensures { map plain_entry attempts.new.entries ≡ with_entry txn (to_answered told newest) (map plain_entry attempts.old.entries) }
{
    if let Some(place) = attempts.get_index_of(&txn) {
        add(&mut attempts[place], told, newest);
    }
}

fn add(attempt: &mut Attempt, told: Told, newest: usize)
    requires { vec_len attempt.old.answers < vec_capacity attempt.old.answers }
    ensures { plain_attempt attempt.new ≡ to_answered told newest (plain_attempt attempt.old) }
{
    attempt.began = begun_at(&attempt.answers, newest, attempt.began);
    attempt.answers.push_reserved(told);
    attempt.last = None;
    attempt.touched = true;
}

// Where an attempt with these answers begins, if one is added.
fn begun_at(answers: &[Told], newest: usize, began: usize) -> usize
    ensures { result ≡ (if is_empty answers.now then newest else began) }
{
    if answers.is_empty() { newest } else { began }
}

/// The reply at this place told it of waits.
pub fn wait(attempts: &mut IndexMap<TxnId, Attempt>, txn: TxnId, reply: usize)
    ensures { map plain_entry attempts.new.entries ≡ with_entry txn (to_waiting reply) (map plain_entry attempts.old.entries) }
{
    if let Some(place) = attempts.get_index_of(&txn) {
        let attempt = &mut attempts[place];
        attempt.last = Some(reply);
        attempt.touched = true;
    }
}

/// A transaction's attempt ended.
pub fn end(attempts: &mut IndexMap<TxnId, Attempt>, txn: TxnId)
    ensures { map plain_entry attempts.new.entries ≡ with_entry txn to_idle (map plain_entry attempts.old.entries) }
{
    if let Some(place) = attempts.get_index_of(&txn) {
        reset(&mut attempts[place]);
    }
}

/// All attempts ended.
pub fn end_all(attempts: &mut IndexMap<TxnId, Attempt>)
    ensures { map plain_entry attempts.new.entries ≡ map to_idle_entry (map plain_entry attempts.old.entries) }
{
    'attempts: for place in 0..attempts.len() {
        reset(&mut attempts[place]);
    }
}

// As if it had never begun; the places for its answers stay.
fn reset(attempt: &mut Attempt)
    ensures { plain_attempt attempt.new ≡ idle_attempt }
{
    attempt.answers.clear();
    attempt.began = 0;
    attempt.last = None;
    attempt.touched = false;
    attempt.preempted = false;
}

/// Keeps a place for one answer more of a transaction, which has an entry then. Refuses an entry past the number of
/// statements that may be submitted, which never comes, as want of memory.
pub fn prepare(
    alloc: Global,
    attempts: &mut IndexMap<TxnId, Attempt>,
    txn: TxnId,
) -> Result<(), AllocError>
    requires { length attempts.old.entries ≤ MAX_SUBMITS }
    ensures ok { OnOk result (map plain_entry attempts.new.entries ≡ and_entry txn (map plain_entry attempts.old.entries)) }
    ensures few { OnOk result (length attempts.new.entries ≤ MAX_SUBMITS) }
    ensures room { OnOk result (HasAnswerRoom txn attempts.new.entries) }
    ensures err { OnErr result (map plain_entry attempts.new.entries ≡ map plain_entry attempts.old.entries) }
{
    match attempts.get_index_of(&txn) {
        Some(place) => reserve(&mut attempts[place]),
        None if attempts.len() as u64 >= MAX_SUBMITS => Err(AllocError),
        None => insert(alloc, attempts, txn),
    }
}

fn reserve(attempt: &mut Attempt) -> Result<(), AllocError>
    ensures same { plain_attempt attempt.new ≡ plain_attempt attempt.old }
    ensures room { OnOk result (IsRoomy (Some attempt.new)) }
{
    attempt.answers.reserve(1)?;
    Ok(())
}

fn insert(
    alloc: Global,
    attempts: &mut IndexMap<TxnId, Attempt>,
    txn: TxnId,
) -> Result<(), AllocError>
    requires new { lookup (nat_eq txn) attempts.old.entries ≡ None }
    requires few { length attempts.old.entries < MAX_SUBMITS }
    ensures few { OnOk result (length attempts.new.entries ≤ MAX_SUBMITS) }
    ensures ok { OnOk result (map plain_entry attempts.new.entries ≡ map plain_entry attempts.old.entries ++ (txn, idle_attempt) ∷ []) }
    ensures room { OnOk result (HasAnswerRoom txn attempts.new.entries) }
    ensures err { OnErr result (map plain_entry attempts.new.entries ≡ map plain_entry attempts.old.entries) }
{
    let attempt = Attempt {
        answers: Vec::with_capacity(alloc, 1)?,
        began: 0,
        last: None,
        touched: false,
        preempted: false,
    };
    attempts.insert(txn, attempt)?;
    Ok(())
}
