//! The driver's calls: each makes a choice of a schedule, or a part of one, on the kept history of a shepherd, with a backend
//! behind each replica.
//!
//! [`drive`] runs a whole scenario from nothing, and [`Driver`] makes any choices on the history that it keeps.
#![tactic(auto)]

mod choice;
mod driver;
mod reply;
mod round;
mod script;
mod session;
mod start;
mod take;

pub use choice::{choose_replica, choose_session};
pub use driver::Driver;
pub use reply::give_reply;
pub use round::{each_replica, each_session, replica_at, session_at};
pub use script::make_call;
pub use start::drive;
pub use take::{suspect_all, take_job};
