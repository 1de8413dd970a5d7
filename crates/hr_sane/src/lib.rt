//! Laws of views: sane views stay sane, and in one each event changes what its word says.
//!
//! Each law is the contract of a function that does nothing. Code that keeps a view, and changes it by these words, keeps
//! the view of its history.
#![tactic(auto)]

pub mod laws;
