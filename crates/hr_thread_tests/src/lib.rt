//! Code that runs in threads, with the tests that start them. It stands at the top, so that no crate below starts one.
#![tactic(auto)]

pub mod calls;
#[cfg(test)]
mod tests;
pub mod turns;
