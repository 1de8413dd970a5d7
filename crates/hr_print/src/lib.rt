//! The one text of a statement's syntax tree, which is read again as the same tree apart from places.
#![tactic(auto)]

mod parts;
mod printing;

pub use printing::print;
