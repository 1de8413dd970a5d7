//! Worked runs of scenarios, held against the definitions of how far scripts have come and of what choices make.
//!
//! Each function does nothing. What it ensures is computed from the definitions, or shown by them, at moments of worked histories.
#![tactic(auto)]

pub mod choices;
pub mod worked;
