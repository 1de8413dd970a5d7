//! The one kept history, with all that is known of it.
//!
//! A `Ledger` stores the entries, and keeps beside them the view that the rules look at, the turn, and what the next entry may
//! need. Contracts see the list of entries alone: all else is a function of it. Each call adds one entry, a caller's call or
//! what is due, so the history has begun rightly at every moment.
#![tactic(auto)]

mod events;
mod ledger;
mod room;
mod script;

pub use hr_due::FollowUp;
pub use ledger::Ledger;
