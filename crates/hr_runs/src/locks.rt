//! A lock table, and what is asked of it.

use crate::item::{Item, needs_of};
use crate::random::push_random;
use hr_locks::{Grant, LockTable};
use std::alloc::{AllocError, Global};

#[derive(Drop)]
pub struct Locks {
    table: LockTable<Item>,
}

impl Locks {
    pub fn new(alloc: Global) -> Locks {
        Locks {
            table: LockTable::new(alloc),
        }
    }

    /// Makes a line's call, and tells what came of it.
    pub fn call(&mut self, alloc: Global, out: &mut String, line: &str) -> Result<(), AllocError> {
        let (word, rest) = line.split_once(' ').unwrap_or((line, ""));
        match word {
            "new" => self.table.release_all(),
            "ask" => return self.ask(alloc, out, rest, false),
            "try" => return self.ask(alloc, out, rest, true),
            "release" => self.release(rest),
            "random" => return push_random(alloc, out, rest.parse().unwrap_or(0)),
            _ => return out.push_str("no such word"),
        }
        out.push_str("done")
    }

    // A request of the transaction that comes first, with the needs behind it. A grant may be taken back.
    fn ask(
        &mut self,
        alloc: Global,
        out: &mut String,
        rest: &str,
        takes_back: bool,
    ) -> Result<(), AllocError> {
        let (txn, needs) = rest.split_once(' ').unwrap_or((rest, ""));
        let txn = txn.parse().unwrap_or(0);
        let needs = needs_of(alloc, needs)?;
        let grant = self.table.request(alloc, txn, &needs)?;
        write!(out, "{grant:?}")?;
        if takes_back && matches!(grant, Grant::Granted) {
            self.table.undo(txn);
        }
        Ok(())
    }

    fn release(&mut self, rest: &str) {
        match rest.parse() {
            Ok(txn) => self.table.release(txn),
            Err(_) => self.table.release_all(),
        }
    }
}
