//! The core: the kept history, made of whole turns, with what each session is told.
//!
//! A `Core` adds to a history one turn a call: the caller's, and then what is due, until nothing is. Whoever makes a call has
//! seen that it is allowed. Beside the history it keeps, by places among the replies, what each session was told and why
//! each transaction was refused, so that nothing is looked up in the history.
#![tactic(auto)]

mod copies;
mod refusals;
mod seat;
mod whole;

pub use hr_ledger::Ledger;
pub use whole::Core;
