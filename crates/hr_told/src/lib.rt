//! What a report tells of the committed transactions, and which block of a scenario each of them is told to be.
#![tactic(auto)]

ghost use Rattle.std.specs.Prelude.{◌≡◌};
ghost use Rattle.std.specs.Option.{option_copied};
ghost use Rattle.hr_base.specs.Lists.{numbered};
ghost use Rattle.hr_told.specs.Blocks as spec;

use hr_engine::TxnId;
use hr_rel::{Answer, Seq, Stmt};
use hr_said::Scenario;

/// A report, as far as it tells of what was committed: the transactions in the order of their commits.
pub struct Report {
    pub commits: Seq<ToldCommit>,
}

impl Drop for Report {
    fn drop(self) {
        let Report { commits: _commits } = self;
    }
}

/// A committed transaction, as a report tells of it.
pub struct ToldCommit {
    /// The number of its session, from 1.
    pub session: u32,
    /// The number of the session's block that it was a try of, from 1.
    pub block: u32,
    pub txn: TxnId,
    /// The accepted answers to the statements of the block, in their order and in canonical form.
    pub answers: Seq<Answer>,
}

impl Drop for ToldCommit {
    fn drop(self) {
        let ToldCommit {
            session: _session,
            block: _block,
            txn: _txn,
            answers: _answers,
        } = self;
    }
}

/// The statements of a block, by the numbers of its session and of itself, both from 1; None where the scenario has no such
/// block.
pub fn block_of(scenario: &Scenario, session: u32, block: u32) -> Option<&[Stmt]>
    ensures { option_copied result ≡ spec.block_of scenario.now session block }
{
    let script = numbered(scenario.scripts.as_slice(), session)?;
    let block = numbered(script.as_slice(), block)?;
    Some(block.stmts.as_slice())
}

/// The item with this number, counted from 1.
#[tactic(auto, using(crate::proofs::FromOne::number_there))]
fn numbered<T>(items: &[T], number: u32) -> Option<&T>
    ensures { option_copied result ≡ numbered items.now number }
{
    if number == 0 {
        return None;
    }
    items.get(number as usize - 1)
}
