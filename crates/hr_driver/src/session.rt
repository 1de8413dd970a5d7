//! A session makes the next call of its script.
ghost use Rattle.std.specs.Prelude.{◌≡◌, true, Some, option_copied, length, OnOk, OnErr};
ghost use Rattle.hr_base.specs.Lists.{numbered};
ghost use Rattle.hr_history.specs.declared.phase.Phase.TheVariants as phase;
ghost use Rattle.hr_history.specs.Faithful.{session_caller};
ghost use Rattle.hr_history.specs.Replies.{reply_to, is_waiting};
ghost use Rattle.hr_history.specs.Transactions.{session_of, submits, phase_of};
ghost use Rattle.hr_ledger.specs.Chronicle.{history_in};
ghost use Rattle.hr_schedule.specs.Scripts.{script, call_in, call_or_end, end_call};
ghost use Rattle.hr_schedule.specs.Choices.{Acts};
ghost use Rattle.hr_driver.specs.Made.{Made};

use hr_engine::TxnId;
use hr_rel::{Stmt, TryCopy};
use hr_said::{Block, Scenario};
use hr_shepherd::{Refusal, Shepherd};
use std::alloc::{AllocError, Global};

/// The block with this number, from 1, of a session's script.
pub fn block_of(scenario: &Scenario, session: u32, number: usize) -> Option<&Block>
    ensures { option_copied result ≡ numbered (script scenario.now session) number }
{
    if session == 0 || number == 0 {
        return None;
    }
    match scenario.scripts.as_slice().get(session as usize - 1) {
        Some(script) => script.as_slice().get(number - 1),
        None => None,
    }
}

/// Whether a session waits for a reply, whose active transaction this is.
pub fn waits(shepherd: &Shepherd, session: u32, txn: TxnId) -> bool
    requires its { session_of txn (history_in shepherd.now) ≡ Some session }
    requires active { phase_of txn (history_in shepherd.now) ≡ phase.Active }
    ensures { result ≡ is_waiting (reply_to session (history_in shepherd.now)) }
{
    shepherd.history();
    shepherd.view().given(txn) < shepherd.view().statements(txn)
}

/// The next call within a block, of whose active transaction `txn` is the number: a statement, unless no more may be
/// submitted, or the block's end.
pub fn call_within(
    alloc: Global,
    shepherd: &mut Shepherd,
    block: &Block,
    session: u32,
    txn: TxnId,
) -> Result<(), AllocError>
    requires its { session_of txn (history_in shepherd.old) ≡ Some session }
    ensures ok { OnOk result (Made (Acts shepherd.old.f (session_caller shepherd.old.f session) (call_in txn (length (submits txn (history_in shepherd.old))) (history_in shepherd.old) block.now)) shepherd.old shepherd.new) }
    ensures err { OnErr result (shepherd.new ≡ shepherd.old) }
{
    let count = statements(shepherd, session, txn);
    match block.stmts.as_slice().get(count) {
        Some(stmt) => submit(alloc, shepherd, stmt, session, txn),
        None => end(shepherd, block.commits, session, txn),
    }
}

// How many statements of the session's transaction were submitted.
fn statements(shepherd: &Shepherd, _session: u32, txn: TxnId) -> usize
    requires its { session_of txn (history_in shepherd.now) ≡ Some _session }
    ensures { result ≡ length (submits txn (history_in shepherd.now)) }
{
    shepherd.view().statements(txn) as usize
}

fn submit(
    alloc: Global,
    shepherd: &mut Shepherd,
    stmt: &Stmt,
    session: u32,
    txn: TxnId,
) -> Result<(), AllocError>
    requires its { session_of txn (history_in shepherd.old) ≡ Some session }
    ensures ok { OnOk result (Made (Acts shepherd.old.f (session_caller shepherd.old.f session) (call_or_end (Some stmt.now) true txn (length (submits txn (history_in shepherd.old))) (history_in shepherd.old))) shepherd.old shepherd.new) }
    ensures err { OnErr result (shepherd.new ≡ shepherd.old) }
{
    let caller = caller_of(shepherd, session);
    let copy = stmt.try_copy(alloc)?;
    match shepherd.submit(caller, txn, copy) {
        Ok(_) => Ok(()),
        // the choice is idle
        Err(Refusal::StatementLimit) => Ok(()),
        Err(_) => Err(AllocError),
    }
}

fn end(shepherd: &mut Shepherd, commits: bool, session: u32, txn: TxnId) -> Result<(), AllocError>
    ensures ok { OnOk result (Made (Acts shepherd.old.f (session_caller shepherd.old.f session) (Some (end_call commits txn))) shepherd.old shepherd.new) }
    ensures err { OnErr result (shepherd.new ≡ shepherd.old) }
{
    let caller = caller_of(shepherd, session);
    let asked = if commits {
        shepherd.ask_commit(caller, txn)
    } else {
        shepherd.ask_rollback(caller, txn)
    };
    match asked {
        Ok(()) => Ok(()),
        Err(_) => Err(AllocError),
    }
}

/// The number that a session has as a caller.
pub fn caller_of(shepherd: &Shepherd, session: u32) -> u64
    ensures { result ≡ session_caller shepherd.now.f session }
{
    2 * u64::from(shepherd.view().f()) + 1 + u64::from(session)
}
