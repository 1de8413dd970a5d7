//! Rows by table and key: beside each committed row at most one pending row, of a transaction that hasn't ended.
#![tactic(auto)]

mod cell;
mod cells;
mod changes;
mod ending;
mod laws;
mod load;
mod place;
mod scan;
mod store;
mod written;

pub use cell::{Cell, Pending, TxnId};
pub use ending::Ending;
pub use laws::{
    a_writer_sees_its_writes, others_see_no_write, what_was_seen_is_committed,
    writes_commit_nothing,
};
pub use place::Place;
pub use store::Store;
