//! Footprints: which rows a statement reads and which it may change, and what follows for statements whose footprints share
//! no key where one of the two writes.
//!
//! Each law is the contract of a function that does nothing; what it ensures holds of all databases and statements.
#![tactic(auto)]

mod keys;
pub mod laws;

pub use keys::Keys;
