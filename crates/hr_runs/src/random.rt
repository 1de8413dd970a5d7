//! Random calls, each answer held against a search of all cycles.
use crate::draw::Draw;
use crate::item::Item;
use crate::plain::{Plain, TXNS};
use hr_locks::{Grant, LockTable, Need, TxnId};
use std::alloc::{AllocError, Global};

/// How many answers of each kind came.
#[derive(Clone, Copy)]
struct Tally {
    requests: u32,
    blocked: u32,
    deadlocks: u32,
    /// Deadlocks of four or more members.
    long: u32,
    wrong: u32,
}

impl Tally {
    fn count(&mut self, grant: &Grant) {
        self.requests = self.requests.wrapping_add(1);
        match grant {
            Grant::Granted => {}
            Grant::Blocked(_) => self.blocked = self.blocked.wrapping_add(1),
            Grant::Deadlock(cycle) => {
                self.deadlocks = self.deadlocks.wrapping_add(1);
                self.long = self.long.wrapping_add(u32::from(cycle.len() >= 4));
            }
        }
    }
}

/// The table beside the plain one.
#[derive(Drop)]
struct Both {
    table: LockTable<Item>,
    plain: Plain,
}

impl Both {
    fn release(&mut self, txn: TxnId) {
        self.table.release(txn);
        self.plain.release(txn);
    }

    // One request. One in ten grants is taken back, and more than half of those that would close a cycle end.
    fn ask(
        &mut self,
        alloc: Global,
        draw: &mut Draw,
        tally: &mut Tally,
        txn: TxnId,
        needs: &[Need<Item>],
    ) -> Result<(), AllocError> {
        let grant = self.table.request(alloc, txn, needs)?;
        tally.count(&grant);
        if !self.plain.agrees(alloc, txn, needs, &grant)? {
            tally.wrong = tally.wrong.wrapping_add(1);
        }
        let chance = draw.below(10);
        match &grant {
            Grant::Granted if chance == 0 => {
                self.table.undo(txn);
                return Ok(());
            }
            Grant::Deadlock(_) if chance < 6 => {
                self.release(txn);
                return Ok(());
            }
            _ => {}
        }
        self.plain.follow(txn, needs, &grant)
    }

    // One transaction ends, or asks. One that waits seldom does either.
    fn step(
        &mut self,
        alloc: Global,
        draw: &mut Draw,
        tally: &mut Tally,
    ) -> Result<(), AllocError> {
        let txn = 1 + draw.below(TXNS);
        if self.plain.is_waiting(txn) && draw.below(100) < 97 {
            return Ok(());
        }
        if draw.below(100) < 6 {
            self.release(txn);
            return Ok(());
        }
        let needs = draw.needs(alloc)?;
        self.ask(alloc, draw, tally, txn, &needs)
    }
}

fn run(alloc: Global, steps: u32) -> Result<Tally, AllocError> {
    let mut both = Both {
        table: LockTable::new(alloc),
        plain: Plain::new(alloc),
    };
    let mut draw = Draw {
        state: 88_172_645_463_325_252,
    };
    let mut tally = Tally {
        requests: 0,
        blocked: 0,
        deadlocks: 0,
        long: 0,
        wrong: 0,
    };
    for _ in 0..steps {
        both.step(alloc, &mut draw, &mut tally)?;
    }
    Ok(tally)
}

/// How many of the answers to random calls were wrong, and whether enough of each kind came.
pub fn push_random(alloc: Global, out: &mut String, steps: u32) -> Result<(), AllocError> {
    let tally = run(alloc, steps)?;
    let wrong = tally.wrong;
    let requests = tally.requests >= 3000;
    let blocked = tally.blocked >= tally.requests / 3;
    let deadlocks = tally.deadlocks >= 500;
    let long = tally.long >= 100;
    write!(
        out,
        "{wrong} wrong; 3000 requests {requests}, a third of them blocked {blocked}, 500 deadlocks {deadlocks}, 100 of four or more {long}"
    )
}
