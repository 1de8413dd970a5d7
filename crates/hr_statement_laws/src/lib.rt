//! Laws of what statements mean. Each function does nothing; what it ensures holds of all databases and statements.
#![tactic(auto)]

pub mod laws;
