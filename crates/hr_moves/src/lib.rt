//! Words on views: when a view is sane, what each event changes in a sane one, and what may still follow in a turn.
//!
//! `specs/` has the words. That they fit the history's is proved one crate above.
#![tactic(auto)]

mod outcome;
pub mod worked;

pub use outcome::{Settled, Tally};
