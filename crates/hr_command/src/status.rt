//! How a run ended.

use hr_reader::InputKind;

/// How a run of the program ended.
#[derive(Clone, Copy, Debug, PartialEq, Eq)]
pub enum Status {
    /// What was asked for was done; the whole input was read and the whole text written.
    Ok,
    /// An audit found an answer that isn't the one due.
    Differs,
    /// The words of the command are no form of it.
    Usage,
    /// The input isn't a scenario: its first refused line, from 1, and why. The line is one more than there are where the
    /// input ends too early, and 0 where it is too long.
    Input { line: u32, kind: InputKind },
    /// Reading the input failed.
    ReadFault,
    /// Writing the text failed; a front of it went out.
    WriteFault,
    /// Memory was refused.
    Memory,
}
