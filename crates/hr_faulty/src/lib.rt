//! A backend that lies by a script, over any other backend.
#![tactic(auto)]

mod faulty;
mod script;

pub use faulty::{Faulty, names_calls};
pub use script::{Act, Fault, When};
