//! Whether the answers that a report tells are those that are due: the told blocks are run alone, one after another in the order
//! of the told commits, on the database that the scenario begins with.
//!
//! Whoever doubts a report needs no trust in what wrote it: nothing is read of it but which block each commit was, and its
//! answers.
#![tactic(auto)]

mod auditing;
mod commit;
mod verdict;

pub use auditing::audit;
pub use verdict::Verdict;
