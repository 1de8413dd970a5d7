//! Reads the texts of answers: exactly those that answers in canonical form have. Which answer a text is, and how many lines it
//! has, `read_answer` and `answer_lines` say; `answer_at` and `read_row` read what stands in the lines of a longer text.
#![tactic(auto)]

mod answer;
mod first;
mod lines;
mod number;
mod row;

pub use answer::{answer_at, answer_lines, read_answer};
pub use lines::TextLines;
pub use number::{long, short};
pub use row::read_row;
