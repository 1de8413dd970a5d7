//! What sessions are told.

use hr_history::{Cause, Ending, Reply};
use std::io;

/// A reply.
pub fn print_reply<R: Print>(rt: &R, reply: &Reply) -> io::Result<()> {
    match reply {
        Reply::Answered(answer) => println!(rt; "Answered({answer:?})"),
        Reply::Committed(place) => println!(rt; "Committed({place})"),
        Reply::Refused(cause) => print_cause(rt, cause),
    }
}

/// An ending.
pub fn print_ending<R: Print>(rt: &R, ending: &Ending) -> io::Result<()> {
    match ending {
        Ending::Committed(place) => println!(rt; "Committed({place})"),
        Ending::RolledBack => println!(rt; "RolledBack"),
        Ending::Refused(cause) => print_cause(rt, cause),
    }
}

fn print_cause<R: Print>(rt: &R, cause: &Cause) -> io::Result<()> {
    match cause {
        Cause::Deadlock(cycle) => println!(rt; "Refused: deadlock {:?}", cycle.as_slice()),
        Cause::PrimaryChanged { from, why } => println!(rt; "Refused: primary {from} {why:?}"),
        Cause::Differ {
            index,
            given,
            agreed,
        } => { println!(rt; "Refused: differ in {index}, given {given:?}, agreed {agreed:?}") }
        Cause::PrimaryMemory => println!(rt; "Refused: primary had no memory"),
    }
}
