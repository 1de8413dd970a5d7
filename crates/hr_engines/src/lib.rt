//! The engines behind one type.
#![tactic(auto)]

mod engine;
mod kinds;

pub use engine::Engine;
pub use kinds::{Engines, handed, journals};
