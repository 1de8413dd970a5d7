//! What holds of every run of a scenario that disturbs nothing: no replica's script has an act, and nobody is to be suspected.
//!
//! Each law is the contract of a function that does nothing.
#![tactic(auto)]

pub mod laws;
