//! What follows from a call: the first of the rules that applies, found over the view and the turn alone.
//!
//! The rules' searches and tests stand in the crates below; here they are put in their order.
#![tactic(auto)]

mod convictions;
mod follow_up;
mod preemptions;
mod refusals;
mod rules;
mod turn;
mod votes;

pub use follow_up::FollowUp;
pub use rules::due;
pub use turn::{BadCount, Contradiction, Gone, Turn};
