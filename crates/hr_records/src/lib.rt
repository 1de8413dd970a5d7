//! What every history keeps that has begun rightly.
//!
//! Each law is the contract of a function that does nothing. The laws of serial answers and of decisions stand on these.
#![tactic(auto)]

pub mod laws;
