//! The text of an answer: its lines, with line feeds between them and none at the end.
#![tactic(auto)]

mod text;

pub use text::{push_answer, push_row, write};
