//! An engine that locks what its statements need: lock, run, keep what the journal promises. It stands over a store of rows
//! and a kind of lock names, and is proved once for all of them.
#![tactic(auto)]

mod engine;
mod locking;
mod store;

pub use engine::LockEngine;
pub use locking::Locking;
pub use store::TxnStore;
