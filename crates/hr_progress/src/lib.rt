//! The view of all replicas: what the shepherd keeps in place of its history, and goes by.
//!
//! Contracts see a `View` as the record that a history's view is (`view_of`). The type keeps each reply to a run once,
//! in `replies`; where the record has an answer, or a list of transactions that are waited for, the type has its place
//! there. Beside the record it keeps what no rule shall look for among all transactions: those that are open, those that
//! have something to roll back at each replica, and how far each has processed the log.
#![tactic(auto)]

mod answers;
mod attempt;
mod progress;
mod txn;
mod view;
mod waits;

pub use hr_history::{Fresh, Job, Last, Phase};
pub use view::View;
