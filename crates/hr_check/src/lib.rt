//! Whether a statement's syntax tree may be bound in a catalog: the one problem that is told of it, if it has any. Nothing
//! here takes memory.
#![tactic(auto)]

mod cond;
mod expr;
mod insert;
mod select;
mod statement;
mod update;

pub use statement::first_problem;
