//! What a person is told of a run that didn't end well.
ghost use Rattle.std.specs.Prelude.{◌≡◌};
ghost use Rattle.hr_command.specs.Told as spec;

use crate::status::Status;
use hr_reader::InputKind;
use thiserror::Error;

/// The statuses that have a text, each with its text.
#[derive(Clone, Copy, Debug, PartialEq, Eq, Error)]
pub enum Fault {
    #[error("usage: hrdb step, serve, audit, make SEED SESSIONS TRANSACTIONS, load SEED SESSIONS TRANSACTIONS")]
    Usage,
    #[error("input: line {line}: {kind}")]
    Input { line: u32, kind: InputKind },
    #[error("read fault")]
    Read,
    #[error("write fault")]
    Write,
    #[error("out of memory")]
    Memory,
}

/// The fault of a status; none where there is nothing to tell.
pub fn fault_of(status: &Status) -> Option<Fault>
    ensures { result ≡ spec.fault_of status.now }
{
    match *status {
        Status::Ok | Status::Differs => None,
        Status::Usage => Some(Fault::Usage),
        Status::Input { line, kind } => Some(Fault::Input { line, kind }),
        Status::ReadFault => Some(Fault::Read),
        Status::WriteFault => Some(Fault::Write),
        Status::Memory => Some(Fault::Memory),
    }
}

/// The program's exit status.
pub fn exit_status(status: &Status) -> u8
    ensures { result ≡ spec.exit_of status.now }
{
    match *status {
        Status::Ok => 0,
        Status::Differs => 1,
        Status::Usage => 2,
        Status::Input { .. } => 3,
        Status::ReadFault => 4,
        Status::WriteFault => 5,
        Status::Memory => 6,
    }
}
