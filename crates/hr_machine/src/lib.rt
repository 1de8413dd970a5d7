//! A database that runs statements one after another exactly as they are defined. Its rows lie in lists; no table is copied,
//! and where memory runs out, a statement has changed nothing.
#![tactic(auto)]

mod insert;
mod machine;
mod select;
mod update;

pub use machine::Machine;
