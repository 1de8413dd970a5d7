//! Large scenarios from a number: transfers between the accounts of one table, drawn by a generator of pseudo-random numbers.
#![tactic(auto)]

mod draws;
mod order;
mod text;

pub use order::{Order, read_order};
pub use text::make;
