//! Which keys a statement needs, and by which path its rows are found.
#![tactic(auto)]

mod bounds;
mod condition;
mod interval;
pub mod laws;
mod locking;
mod needs;
mod path;
mod span;

pub use bounds::Bounds;
pub use hr_parts::Keys;
pub use needs::intervals;
pub use path::{Path, choose};
pub use span::Span;
