//! What one caller's calls tell of the whole history.
//!
//! Each law is the contract of a function that does nothing. A driver or a desk knows the calls that it has made itself,
//! and these laws say what stands while others go on.
#![tactic(auto)]

pub mod laws;
