//! The summary of a run of transfers: how many transactions committed, were refused and gave way, and what all accounts hold.
#![tactic(auto)]

mod counts;
mod text;
mod total;

pub use text::summary_text;
