//! Histories worked out entry by entry, held against the definitions.
//!
//! Each function does nothing. What it ensures is computed from the definitions: that a history which follows the rules
//! is faithful, and that one which doesn't isn't.
#![tactic(auto)]

pub mod allowed;
pub mod broken;
pub mod decisions;
pub mod details;
pub mod faithful;
pub mod giving_way;
pub mod journals;
pub mod losses;
pub mod other_sizes;
pub mod primaries;
pub mod replies;
pub mod steps;
pub mod views;
pub mod within_turns;
