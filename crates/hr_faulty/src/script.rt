ghost use Rattle.std.specs.Prelude.{◌≡◌, option_copied};
ghost use Rattle.hr_faulty.specs.Script.{act_at, loss_of, position_of};

use hr_engine::TxnId;
use hr_rel::Seq;

/// One act of a script: at the call with this number. The calls `run`, `commit`, `rollback` and `restart` are counted
/// from 1.
pub struct Fault {
    pub call: u64,
    pub act: Act,
}

impl Drop for Fault {
    fn drop(self) {
        let Fault {
            call: _call,
            act: _act,
        } = self;
    }
}

/// What a scripted backend does at a call. On a call of another kind an act but `Lose` does nothing.
#[derive(Drop)]
pub enum Act {
    /// On a run that is answered Done: answers one row with this one value in place of the answer.
    Wrong(i64),
    /// On a run: answers that so many rows were changed, and runs nothing.
    Drop(u64),
    /// On a run that is answered Done: commits the transaction behind its back at once.
    Early,
    /// On a run: answers Blocked with this list, as it is written, and runs nothing.
    Block(Seq<TxnId>),
    /// On a run: answers Deadlock with this list, as it is written, and runs nothing.
    Deadlock(Seq<TxnId>),
    /// On a run: answers that a number overflowed, and runs nothing.
    Fail,
    /// On a restart that is answered Ok: tells this count.
    Position(u64),
    /// On any call: answers Lost. No lie, since any backend may lose what is running.
    Lose(When),
}

/// Whether a loss comes before or after the call is made.
#[derive(Clone, Copy, Debug, PartialEq, Eq)]
pub enum When {
    Before,
    After,
}

/// The act of the script at a call: that of the first fault with its number.
pub fn act_at(script: &[Fault], call: u64) -> Option<&Act>
    ensures { option_copied result ≡ act_at script.now call }
{
    match script {
        [] => None,
        [fault, ..] if fault.call == call => Some(&fault.act),
        [_, rest @ ..] => act_at(rest, call),
    }
}

/// The loss that an act is, if it is one.
pub fn loss_of(act: Option<&Act>) -> Option<When>
    ensures { result ≡ loss_of (option_copied act.entry) }
{
    match act {
        Some(Act::Lose(when)) => Some(*when),
        _ => None,
    }
}

/// The count that an act tells, if it tells one.
pub fn position_of(act: Option<&Act>) -> Option<u64>
    ensures { result ≡ position_of (option_copied act.entry) }
{
    match act {
        Some(Act::Position(count)) => Some(*count),
        _ => None,
    }
}
