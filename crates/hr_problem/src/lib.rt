//! What may be wrong with a statement, and which of several problems is told.
#![tactic(auto)]

mod problem;

pub use problem::{Problem, ProblemKind, least_is_first, none_at_all, problem_where, sooner};
