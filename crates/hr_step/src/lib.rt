//! Runs a scenario, and reports the run or sums it up: the shepherd over the two engines, each behind its script.
#![tactic(auto)]

mod copy;
mod engines;
mod replica;
mod run;
mod step;

pub use step::{report, summary};
