//! What statements mean: `specs/` says what a statement, a transaction and a serial run do to a database, and when two
//! answers are equal. The only code here is the type of truth values, and the worked runs that the definitions are held
//! against.
#![tactic(auto)]

mod truth;
pub mod worked;

pub use truth::Truth;
