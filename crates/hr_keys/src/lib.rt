//! Rows found by their keys. In a table in the order of keys binary search finds the place of a key, and where a condition asks
//! for one key, only the rows near it are looked at. Nothing here takes memory.
#![tactic(auto)]

mod condition;
mod order;
mod place;
mod span;

pub use condition::asked_key;
pub use order::in_order;
pub use place::place_of;
pub use span::{Span, near, span_of};
