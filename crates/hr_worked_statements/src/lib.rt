//! Worked statements, each held against the definitions: `specs/` lists statements with what they answer and leave, as
//! worked out by hand from the rules. Each function does nothing; that the definitions say the same is what it ensures.
#![tactic(auto)]

pub mod table;
