//! Binding: from the syntax tree of a statement and a catalog to the bound statement, in which names are turned into
//! places, or to the statement's first problem; and from its text in one go.
#![tactic(auto)]

mod cond;
mod error;
mod expr;
mod insert;
mod operand;
mod select;
mod statement;
mod text;
mod update;

pub use error::{BindError, PrepareError, StatementError};
pub use hr_check::first_problem;
pub use hr_problem::{Problem, ProblemKind};
pub use statement::bind;
pub use text::prepare;
