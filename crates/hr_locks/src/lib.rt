//! The lock table: which needs conflict, who is in the way of a request, and which request would close a cycle of waits.
#![tactic(auto)]

mod answer;
mod changes;
mod conflicts;
mod grant;
mod need;
mod search;
mod table;
mod wait;

pub use grant::Grant;
pub use need::{Lock, LockName, Mode, Need, TxnId};
pub use table::LockTable;
