//! Who is let through: the refusals of sessions' calls, in their order.
ghost use Rattle.std.specs.Prelude.{◌≡◌, ◌&&◌, IsTrue};
ghost use Rattle.std.specs.List.{list_any};
ghost use Rattle.hr_history.specs.Faithful as history;
ghost use Rattle.hr_history.specs.Replies as replies;
ghost use Rattle.hr_history.specs.Transactions as transactions;
ghost use Rattle.hr_ledger.specs.Chronicle.{history_in};
ghost use Rattle.hr_shepherd.specs.Refused as told;

use crate::refusal::Refusal;
use hr_base::limits::{MAX_STATEMENTS, MAX_SUBMITS};
use hr_core::{Core, Ledger};
use hr_engine::TxnId;
use hr_pool::is_open;

/// Why a session may not begin a transaction, if it may not.
pub fn refused_begin(core: &Core, session: u32) -> Option<Refusal>
    ensures { result ≡ told.refused_begin core.now session }
{
    if has_open(core.ledger(), session) {
        Some(Refusal::AlreadyOpen)
    } else {
        None
    }
}

/// Why a caller may not submit a statement of a transaction, if it may not.
pub fn refused_submit(core: &Core, caller: u64, txn: TxnId) -> Option<Refusal>
    ensures { result ≡ told.refused_submit core.now caller txn }
{
    if !is_own(core.ledger(), caller, txn) {
        Some(Refusal::NotOpen)
    } else if is_busy(core, txn) {
        Some(Refusal::Busy)
    } else if is_at_limit(core.ledger(), caller, txn) {
        Some(Refusal::StatementLimit)
    } else {
        None
    }
}

/// Why a caller may not go on with a transaction, if it may not.
pub fn refused(core: &Core, caller: u64, txn: TxnId) -> Option<Refusal>
    ensures { result ≡ told.refused core.now caller txn }
{
    if !is_own(core.ledger(), caller, txn) {
        Some(Refusal::NotOpen)
    } else if is_busy(core, txn) {
        Some(Refusal::Busy)
    } else {
        None
    }
}

// Whether a session has an open transaction.
fn has_open(ledger: &Ledger, session: u32) -> bool
    ensures { result ≡ history.has_open session (history_in ledger.now) }
{
    any_is_of(ledger, session, ledger.view().opened())
}

// Whether one of these is the session's.
fn any_is_of(ledger: &Ledger, session: u32, txns: &[TxnId]) -> bool
    ensures { result ≡ list_any (λ t. replies.is_of session t (history_in ledger.now)) txns.now }
{
    'txns: for txn in txns {
        if is_of(ledger, session, *txn) {
            return true;
        }
    }
    false
}

fn is_of(ledger: &Ledger, session: u32, txn: TxnId) -> bool
    ensures { result ≡ replies.is_of session txn (history_in ledger.now) }
{
    match ledger.session(txn) {
        Some(own) => session == own,
        None => false,
    }
}

// Whether a transaction is an open one of the caller's session.
fn is_own(ledger: &Ledger, caller: u64, txn: TxnId) -> bool
    ensures { result ≡ told.is_own ledger.now caller txn }
{
    owns(ledger, caller, txn) && is_open(ledger.view().phase(txn))
}

// Whether the caller is the session whose transaction it is.
fn owns(ledger: &Ledger, caller: u64, txn: TxnId) -> bool
    ensures { result ≡ history.owns ledger.now.f caller (transactions.session_of txn (history_in ledger.now)) }
{
    let root = 2 * ledger.view().f() as u64 + 1;
    match ledger.session(txn) {
        Some(own) => caller == root + own as u64,
        None => false,
    }
}

// Whether the session whose transaction it is waits for a reply.
fn is_busy(core: &Core, txn: TxnId) -> bool
    ensures { result ≡ told.is_busy core.now txn }
{
    // sessions that have begun a transaction have the numbers that sessions have
    core.ledger().begun();
    match core.ledger().session(txn) {
        Some(session) => core.is_waiting(session),
        None => false,
    }
}

// Whether no more statements may be submitted, at all or in this transaction.
fn is_at_limit(ledger: &Ledger, caller: u64, txn: TxnId) -> bool
    requires { IsTrue (told.is_own ledger.now caller txn) }
    ensures { result ≡ told.is_at_limit ledger.now txn }
{
    MAX_SUBMITS <= ledger.submitted() || MAX_STATEMENTS <= ledger.view().statements(txn)
}
