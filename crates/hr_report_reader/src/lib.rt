//! Reads reports: what of the committed transactions a text tells that is a report of a scenario, or the first of its lines that
//! is refused.
#![tactic(auto)]

mod ending;
mod form;
mod heading;
mod item;
mod next;
mod reader;
mod told;
mod words;

pub use reader::{ReportError, read_report};
