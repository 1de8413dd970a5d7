//! The report of a run: what was committed, how each session's tries ended, who was convicted, and where each replica stands.
#![tactic(auto)]

mod by_session;
mod commits;
mod convictions;
mod endings;
mod replicas;
mod report;
mod sessions;

pub use by_session::tries;
pub use report::report_text;
