//! The jobs of the replicas, and who gives way there, over what the view keeps in place of all transactions.
#![tactic(auto)]

mod commits;
mod jobs;
pub mod laws;
mod preemption;
mod rollbacks;
mod runs;

pub use jobs::next;
pub use preemption::preempts;
pub use rollbacks::to_roll_back;
pub use runs::{earlier, is_open, is_primary};
