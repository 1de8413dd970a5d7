//! How the calls of a scenario's sessions stand in the history that its choices make: as their scripts say, in order, and once.
//!
//! Each law is the contract of a function that does nothing.
#![tactic(auto)]

pub mod laws;
