//! An engine that locks intervals of keys. Its rows lie in cells: each key's committed row, and beside it at most one pending
//! row, of the transaction that has locked the key.
#![tactic(auto)]

mod engine;
mod look;
mod statement;
mod store;
mod write;

pub use engine::{RangeEngine, range_engine};
pub use store::RangeStore;
