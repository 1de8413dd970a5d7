//! Reads scenarios: the one that a text is, or the first of its lines that is refused, and why.
#![tactic(auto)]

mod error;
mod form;
mod line;
mod put;
mod reader;
mod rows;
mod tuple;

pub use error::{InputError, ReadError};
pub use hr_said::{Block, Choice, EngineKind, InputKind, Scenario};
pub use reader::read;
