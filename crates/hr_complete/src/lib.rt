//! What is never refused, and what is decided, where nothing disturbs the replicas.
//!
//! Each law is the contract of a function that does nothing.
#![tactic(auto)]

pub mod laws;
