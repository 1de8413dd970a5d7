//! A transaction, as the view keeps it.
ghost use Rattle.std.specs.Prelude.{◌≡◌, ◌≤◌, ◌<◌, ◌==◌, not, [], ◌∷◌, ◌++◌, length, filter, map, slice_get, vec_len, OnOk, OnErr, IsTrue, true, if◌then◌else◌};
ghost use Rattle.std.specs.Option.{option_map};
ghost use Rattle.hr_base.specs.Lists.{has, numbered, when};
ghost use Rattle.hr_progress.specs.declared.txn.Given.{Given};
ghost use Rattle.hr_history.specs.Transactions as history;
ghost use Rattle.hr_moves.specs.Changes.{map_from, change_at};
ghost use Rattle.hr_progress.specs.Plain.{plain_txn, plain_txn_in, begun, to_phase, to_given, with_statement};
ghost use Rattle.hr_progress.specs.Kept.{HaveGivenRoom};

use hr_base::limits::MAX_STATEMENTS;
use hr_engine::TxnId;
use hr_history::Phase;
use std::alloc::{AllocError, Global};

/// A transaction.
pub struct TxnState {
    pub session: u32,
    /// How many were submitted.
    pub statements: u32,
    pub given: Vec<Given>,
    pub phase: Phase,
}

impl Drop for TxnState {
    fn drop(self) {
        let TxnState {
            session: _session,
            statements: _statements,
            given: _given,
            phase: _phase,
        } = self;
    }
}

/// An answer that was given to the session.
#[derive(Clone, Copy, Debug, PartialEq, Eq)]
pub struct Given {
    /// The place of the answer among the replies.
    pub reply: usize,
    /// The length of the log when it was given.
    pub stamp: u64,
}

/// Where a transaction stands; a number that none has counts as that of a refused one.
pub fn phase_of(txns: &[TxnState], txn: TxnId) -> Phase
    ensures { result ≡ (plain_txn_in (map plain_txn txns.now) txn).phase }
{
    if txn == 0 {
        return Phase::Refused;
    }
    match txns.get((txn - 1) as usize) {
        Some(state) => state.phase,
        None => Phase::Refused,
    }
}

/// How many statements a transaction has; a number that none has counts as that of one without.
pub fn statements_of(txns: &[TxnState], txn: TxnId) -> u32
    ensures { result ≡ (plain_txn_in (map plain_txn txns.now) txn).statements }
{
    if txn == 0 {
        return 0;
    }
    match txns.get((txn - 1) as usize) {
        Some(state) => state.statements,
        None => 0,
    }
}

/// The length of the log when the answer to the statement with this index, from 1, was given, if it was.
pub fn stamp_at(given: &[Given], index: u32) -> Option<u64>
    ensures { result ≡ option_map (λ (g : Given). g.stamp) (numbered given.now index) }
{
    if index == 0 {
        return None;
    }
    match given.get((index - 1) as usize) {
        Some(given) => Some(given.stamp),
        None => None,
    }
}

/// The length of the log when the answer to the statement after so many was given, if it was.
pub fn stamp_after(given: &[Given], answers: usize) -> Option<u64>
    ensures { result ≡ option_map (λ (g : Given). g.stamp) (slice_get given.now answers) }
{
    match given.get(answers) {
        Some(given) => Some(given.stamp),
        None => None,
    }
}

/// The place among the replies of the answer that was given to the statement with this index, from 1, if it was.
pub fn given_place(given: &[Given], index: u32) -> Option<usize>
    ensures { result ≡ option_map (λ (g : Given). g.reply) (numbered given.now index) }
{
    if index == 0 {
        return None;
    }
    match given.get((index - 1) as usize) {
        Some(given) => Some(given.reply),
        None => None,
    }
}

/// The answers that were given to a transaction; of a number that none has, none.
pub fn given_of(txns: &[TxnState], txn: TxnId) -> &[Given]
    ensures { result.now ≡ (plain_txn_in (map plain_txn txns.now) txn).given }
{
    if txn == 0 {
        return &[];
    }
    match txns.get((txn - 1) as usize) {
        Some(state) => &state.given,
        None => &[],
    }
}

/// A session begins a transaction.
pub fn begin(alloc: Global, txns: &mut Vec<TxnState>, session: u32) -> Result<(), AllocError>
    ensures ok { OnOk result (map plain_txn txns.new.items ≡ map plain_txn txns.old.items ++ begun session ∷ []) }
    ensures err { OnErr result (map plain_txn txns.new.items ≡ map plain_txn txns.old.items) }
    ensures room { HaveGivenRoom txns.old.items → HaveGivenRoom txns.new.items }
{
    txns.push(TxnState {
        session,
        statements: 0,
        given: Vec::new(alloc),
        phase: Phase::Active,
    })?;
    Ok(())
}

/// Sets the phase of a transaction.
pub fn set_phase(txns: &mut Vec<TxnState>, txn: TxnId, phase: Phase)
    requires first { 1 ≤ txn }
    requires last { txn ≤ length txns.old.items }
    ensures phase { map plain_txn txns.new.items ≡ map_from (change_at txn (to_phase phase)) 1 (map plain_txn txns.old.items) }
    ensures room { HaveGivenRoom txns.old.items → HaveGivenRoom txns.new.items }
{
    let place = (txn - 1) as usize;
    let state = &mut txns[place];
    state.phase = phase;
}

/// Counts one statement more, and keeps a place for its answer.
pub fn add_statement(txns: &mut Vec<TxnState>, txn: TxnId) -> Result<(), AllocError>
    requires first { 1 ≤ txn }
    requires last { txn ≤ length txns.old.items }
    requires few { (plain_txn_in (map plain_txn txns.old.items) txn).statements < MAX_STATEMENTS }
    ensures ok { OnOk result (map plain_txn txns.new.items ≡ map_from (change_at txn with_statement) 1 (map plain_txn txns.old.items)) }
    ensures err { OnErr result (map plain_txn txns.new.items ≡ map plain_txn txns.old.items) }
    ensures room { HaveGivenRoom txns.old.items → HaveGivenRoom txns.new.items }
{
    let place = (txn - 1) as usize;
    let state = &mut txns[place];
    let statements = state.statements + 1;
    state.given.reserve(statements as usize)?;
    state.statements = statements;
    Ok(())
}

/// A transaction is no longer open.
pub fn close(opened: &mut Vec<TxnId>, txn: TxnId)
    ensures others { opened.new.items ≡ filter (λ t. not (t == txn)) opened.old.items }
    ensures fewer { vec_len opened.new ≤ vec_len opened.old }
    ensures one { IsTrue (has opened.old.items txn) → vec_len opened.new < vec_len opened.old }
{
    opened.retain(|t| *t != txn);
}

/// Whether a phase is that of an open transaction.
pub fn is_open(phase: Phase) -> bool
    ensures { result ≡ history.is_open phase }
{
    match phase {
        Phase::Active | Phase::Asked(_) => true,
        Phase::Logged(_) | Phase::RolledBack | Phase::Refused => false,
    }
}

/// Gives an answer to a transaction's session, if it is to be given; then tells whose it is. It has its place.
pub fn give_if(is_given: bool, txns: &mut Vec<TxnState>, txn: TxnId, given: Given) -> Option<TxnId>
    requires first { 1 ≤ txn }
    requires last { txn ≤ length txns.old.items }
    requires fits { is_given ≡ true → length (plain_txn_in (map plain_txn txns.old.items) txn).given < (plain_txn_in (map plain_txn txns.old.items) txn).statements }
    requires room { HaveGivenRoom txns.old.items }
    ensures result { result ≡ when is_given txn }
    ensures value { map plain_txn txns.new.items ≡ (if is_given then map_from (change_at txn (to_given given)) 1 (map plain_txn txns.old.items) else map plain_txn txns.old.items) }
    ensures room { HaveGivenRoom txns.new.items }
{
    if !is_given {
        return None;
    }
    let place = (txn - 1) as usize;
    let state = &mut txns[place];
    state.given.push_reserved(given);
    Some(txn)
}
