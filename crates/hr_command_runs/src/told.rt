//! What is printed of a run.

use crate::outside::Ran;
use hr_command::{InputKind, Status, exit_status, fault_of};
use std::alloc::{AllocError, Global};

/// What a run wrote, what a person is told, and the exit status where it isn't 0.
pub fn told(alloc: Global, ran: &Ran) -> Result<String, AllocError> {
    let mut all = String::from_utf8_lossy(alloc, ran.written.as_slice())?;
    all.push_str(of_status(alloc, &ran.status)?.as_str())?;
    Ok(all)
}

/// What is told of each status.
pub fn all_told(alloc: Global) -> Result<String, AllocError> {
    let all = [
        Status::Ok,
        Status::Differs,
        Status::Usage,
        Status::Input {
            line: 0,
            kind: InputKind::TooLong,
        },
        Status::ReadFault,
        Status::WriteFault,
        Status::Memory,
    ];
    let mut lines = String::new(alloc);
    for status in all {
        lines.push_str(of_status(alloc, &status)?.as_str())?;
    }
    Ok(lines)
}

fn of_status(alloc: Global, status: &Status) -> Result<String, AllocError> {
    let exit = exit_status(status);
    match fault_of(status) {
        Some(fault) => format!(in alloc; "{fault}\nexit {exit}\n"),
        None if exit == 0 => Ok(String::new(alloc)),
        None => format!(in alloc; "exit {exit}\n"),
    }
}
