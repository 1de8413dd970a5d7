//! What comes before what: jobs of a replica, decisions, and primaries.
//!
//! Each law is the contract of a function that does nothing. None has a premise on how many replicas lie.
#![tactic(auto)]

pub mod laws;
