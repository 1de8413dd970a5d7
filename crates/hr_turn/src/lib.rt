//! The turn lock: one value behind running threads, and passes that know which of its entries are their own.
//!
//! The value stands for a list of entries, each with its caller's number ([`Kept`]). Whoever holds a [`Pass`] may
//! [`enter`](TurnLock::enter): it draws a ticket, waits until that number is served, and has the value until it
//! [`leave`](TurnLock::leave)s with entries of its own behind what stood there. So the list only grows, a pass has
//! always seen a beginning of it, and the entries of its number are exactly the calls that it made.
//!
//! Pass 0, the root, is made with the lock. It splits the others off and takes them back, and once it has all of
//! them the lock can be closed. A ticket lock serves in the order of the tickets; that anybody is served at all is
//! promised by nobody.
#![tactic(auto)]

mod kept;
mod lock;
mod pass;
mod steps;
mod view;

pub use kept::Kept;
pub use pass::{Pass, TurnLock};
pub use view::View;
