//! Votes, and what shows that a replica isn't correct, judged on the view. It takes no memory.
#![tactic(auto)]

mod lists;
mod shown;
mod votes;
mod waits;
mod walk;

pub use hr_history::Evidence;
pub use hr_moves::Tally;
pub use shown::evidence;
pub use votes::tally;
