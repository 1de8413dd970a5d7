//! What the generator makes is a scenario.
#![tactic(auto)]

pub mod laws;
