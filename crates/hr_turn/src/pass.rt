//! The lock and its passes, as they lie in memory.
ghost use Rattle.std.specs.Prelude.{◌≡◌};

use crate::kept::Kept;
use crate::steps::Turns;
use crate::view::View;
use atomic_table::{Seat, Table};
use std::alloc::Global;
use std::snapshot::Snapshot;

/// A value that callers have in turn. It has two words, the ticket that is drawn next and the one that is served,
/// and a slot for the value.
#[derive(Drop)]
pub struct TurnLock<S: Kept> {
    pub(crate) table: Table<Option<S>, View<S::Entry>, Snapshot<S>, Turns<S>, Global>,
    ghost sized: { (table.shared.table_id.words ≡ 2) × (table.shared.table_id.slots ≡ 1) },
}

/// A caller of one lock: the right to enter it, and what its holder knows of the lock's list. It takes no bytes.
#[derive(Drop)]
pub struct Pass<S: Kept> {
    pub(crate) seat: Seat<Option<S>, View<S::Entry>>,
}
