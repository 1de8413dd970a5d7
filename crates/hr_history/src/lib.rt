//! The history of the shepherd, and what follows from it.
//!
//! A history lists all that the shepherd was asked and told, and what it did about it. `specs/` says what a history
//! tells of each transaction, session and replica, and what the shepherd has to do next: the words that every promise
//! of the shepherd is about. There a history is read from its latest entry back, as a journal is.
#![tactic(auto)]

mod cause;
mod entry;
mod evidence;
mod job;
pub mod laws;
mod phase;
mod reply;

pub use cause::{Cause, CauseAt, Why};
pub use entry::{Entry, Event};
pub use evidence::Evidence;
pub use job::{Job, JobReply};
pub use phase::{Fresh, Last, Phase};
pub use reply::{Ending, Reply};
