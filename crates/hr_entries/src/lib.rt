//! The one kept history, as it is stored and lent: statements and replies stand once, in lists of their own, and entries are
//! plain data with their places. Contracts see the list of entries that they stand for.
#![tactic(auto)]

mod lent;
mod stored;

pub use lent::{Entries, EntryIter, EntryRef, EventRef, ReplyRef};
pub use stored::{Stored, StoredEvent};
