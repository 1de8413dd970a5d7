//! A law of binding: what is bound fits its catalog.
#![tactic(auto)]

mod laws;

pub use laws::bound_fits;
