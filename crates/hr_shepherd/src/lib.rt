//! The shepherd: it stands between sessions and `2f + 1` databases, of which up to `f` may answer wrongly.
//!
//! Its value is the one kept history. Whatever calls made it, and whatever the replicas replied, that history follows the rules.
#![tactic(auto)]

mod gate;
mod order;
mod refusal;
mod shepherd;
pub mod threads;

pub use order::Order;
pub use refusal::Refusal;
pub use shepherd::Shepherd;
