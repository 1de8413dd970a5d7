//! Every scenario that was read can be run.
#![tactic(auto)]

pub mod laws;
