//! No correct replica is convicted, one law for each kind of evidence.
//!
//! Each law is the contract of a function that does nothing. Those of replies that can't be have no premise on how many replicas
//! lie.
#![tactic(auto)]

pub mod laws;
