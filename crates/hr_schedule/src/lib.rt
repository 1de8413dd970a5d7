//! What the scripts and the schedule of a scenario make of a history.
//!
//! `specs/` says how far each session's script has come, by the history alone, and what its next call is; what each choice
//! of a schedule makes of a history, as a relation between the history before and the one after; and what is claimed of a
//! history that the choices have made.
#![tactic(auto)]

mod attempt;
pub mod laws;

pub use attempt::Try;
