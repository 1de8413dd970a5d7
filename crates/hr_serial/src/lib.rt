//! Why the answers are safe: each replica is at a prefix of the log, and the accepted answers are those of the log's
//! transactions run alone, one after another.
//!
//! Each law is the contract of a function that does nothing. It holds of every history that has begun rightly, within
//! turns too, whatever the replicas reply.
#![tactic(auto)]

pub mod laws;
