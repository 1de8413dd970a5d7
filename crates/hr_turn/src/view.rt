//! What a pass knows.
use std::collections::LinkedList;

/// What a pass knows of the lock. It exists in proofs alone: no value of it is made.
pub struct View<E> {
    /// The pass's number: 0 for the root, and for another the number of splits up to its own.
    pub number: u64,
    /// A beginning of the lock's list, which the pass has seen.
    pub seen: LinkedList<E>,
    /// After a join, the shorter of the two lists that the root has from it. Empty once that is settled.
    pub heard: LinkedList<E>,
    /// The entries that the pass made.
    pub mine: LinkedList<E>,
    /// The ticket that the pass holds.
    pub ticket: Option<u64>,
    /// Whether the pass has the value.
    pub inside: bool,
    /// Whether the root has taken the pass back.
    pub spent: bool,
    /// Of the root: how many passes it has split off.
    pub splits: u64,
    /// Of the root: how many of these it has not taken back.
    pub others: u64,
    /// Of the root: each pass that it has taken back, by its number, with the entries that it made.
    pub joined: LinkedList<(u64, LinkedList<E>)>,
    /// The lock's fixed part.
    pub fixed: LinkedList<u64>,
}
