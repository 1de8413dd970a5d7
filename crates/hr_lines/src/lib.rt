//! The lines of a text, one at a time, and what each of them holds.
#![tactic(auto)]

mod lines;
mod text;

pub use lines::Lines;
pub use text::text_of;
