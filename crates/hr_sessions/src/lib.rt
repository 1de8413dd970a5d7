//! The lines of sessions of a scenario: what they say, or why each is refused.
#![tactic(auto)]

mod sessions;
mod statement;

pub use sessions::{session, session_line};
pub use statement::Read;
