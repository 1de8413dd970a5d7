//! The commands of HRDB, over any source and sink: what they read, what they write, and what a person is told of a run.
#![tactic(auto)]

mod command;
mod fault;
mod status;

pub use command::{run, top};
pub use fault::{Fault, exit_status, fault_of};
pub use hr_reader::InputKind;
pub use status::Status;
