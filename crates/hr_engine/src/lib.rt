//! What stands behind the shepherd: one database, as a trait, and what a journal of its calls tells.
//!
//! A journal lists a backend's calls with their replies, the latest first. `specs/` says what a journal tells of
//! each transaction (its attempt, its waits), of the database (how many commits count, and their result), and when
//! it is *rigorous*: as of an engine that keeps each transaction's locks until it ends.
#![tactic(auto)]

mod backend;
mod reply;
pub mod worked;

pub use backend::Backend;
pub use reply::{EndReply, Lost, RunReply, TxnId};
