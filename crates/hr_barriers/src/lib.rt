//! What a correct replica's answers are, on each database that its transactions may stand on.
//!
//! Each law is the contract of a function that does nothing.
#![tactic(auto)]

pub mod laws;
