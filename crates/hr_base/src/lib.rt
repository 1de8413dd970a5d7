//! What many crates say again: the limits, and in `specs/` words on lists, counters, bytes and texts with their lemmas.
//!
//! Only what is settled stands here, since a change here proves everything above again.
#![tactic(auto)]

mod bytes;
pub mod limits;

pub use bytes::is_printable;
