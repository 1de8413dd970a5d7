//! A lock table in plain lists of pairs, which looks through all cycles.
use crate::item::Item;
use hr_locks::{Grant, Mode, Need, TxnId};
use std::alloc::{AllocError, Global};

/// The transactions are 1 to 16.
pub const TXNS: TxnId = 16;

// No search takes more paths.
const PATHS: u32 = 1_000_000;

#[derive(Drop)]
pub struct Plain {
    /// Each with one that holds it.
    pub locks: Vec<(TxnId, Need<Item>)>,
    /// Who waits, and for whom.
    pub waits: Vec<(TxnId, TxnId)>,
}

fn is_shared(need: &Need<Item>) -> bool {
    matches!(need.mode, Mode::Shared)
}

fn is_conflict(one: &Need<Item>, other: &Need<Item>) -> bool {
    one.name.number == other.name.number && !(is_shared(one) && is_shared(other))
}

impl Plain {
    pub fn new(alloc: Global) -> Plain {
        Plain {
            locks: Vec::new(alloc),
            waits: Vec::new(alloc),
        }
    }

    fn waits_for(&self, txn: TxnId, other: TxnId) -> bool {
        self.waits.contains(&(txn, other))
    }

    pub fn is_waiting(&self, txn: TxnId) -> bool {
        self.waits.iter().any(|wait| wait.0 == txn)
    }

    fn is_against(&self, txn: TxnId, needs: &[Need<Item>]) -> bool {
        for lock in &self.locks {
            for need in needs {
                if lock.0 == txn && is_conflict(&lock.1, need) {
                    return true;
                }
            }
        }
        false
    }

    fn in_the_way(
        &self,
        alloc: Global,
        asker: TxnId,
        needs: &[Need<Item>],
    ) -> Result<Vec<TxnId>, AllocError> {
        let mut them = Vec::new(alloc);
        for txn in 1..=TXNS {
            if txn != asker && self.is_against(txn, needs) {
                them.push(txn)?;
            }
        }
        Ok(them)
    }

    // The path with each that its last member waits for, but for the asker and those that it has.
    fn lead_on(
        &self,
        alloc: Global,
        asker: TxnId,
        path: &[TxnId],
        paths: &mut Vec<Vec<TxnId>>,
    ) -> Result<(), AllocError> {
        let last = last_of(path);
        for txn in 1..=TXNS {
            if txn != asker && self.waits_for(last, txn) && !path.contains(&txn) {
                paths.push(with(alloc, path, txn)?)?;
            }
        }
        Ok(())
    }

    // Looks at all paths without a member twice. Gives the cycle that is told of those that would close.
    fn cycle(
        &self,
        alloc: Global,
        asker: TxnId,
        holders: &[TxnId],
    ) -> Result<Option<Vec<TxnId>>, AllocError> {
        let mut paths = Vec::new(alloc);
        for txn in holders {
            paths.push(with(alloc, &[], *txn)?)?;
        }
        let mut told = None;
        for _ in 0..PATHS {
            let Some(path) = paths.pop() else {
                return Ok(told);
            };
            self.lead_on(alloc, asker, &path, &mut paths)?;
            if self.waits_for(last_of(&path), asker) {
                told = Some(first_told(told, path));
            }
        }
        Ok(None)
    }

    /// Whether an answer is the one that is due.
    pub fn agrees(
        &self,
        alloc: Global,
        asker: TxnId,
        needs: &[Need<Item>],
        grant: &Grant,
    ) -> Result<bool, AllocError> {
        let them = self.in_the_way(alloc, asker, needs)?;
        let told = self.cycle(alloc, asker, &them)?;
        Ok(match (grant, told) {
            (Grant::Granted, None) => them.is_empty(),
            (Grant::Blocked(named), None) => !them.is_empty()
                && named.as_slice() == them.as_slice(),
            (Grant::Deadlock(cycle), Some(path)) => {
                cycle.first() == Some(&asker) && cycle.get(1..) == Some(path.as_slice())
            }
            _ => false,
        })
    }

    /// Does what the answer says.
    pub fn follow(
        &mut self,
        asker: TxnId,
        needs: &[Need<Item>],
        grant: &Grant,
    ) -> Result<(), AllocError> {
        self.waits.retain(|wait| wait.0 != asker);
        match grant {
            Grant::Granted => {
                for need in needs {
                    self.locks.push((asker, *need))?;
                }
            }
            Grant::Blocked(named) => {
                for txn in named {
                    self.waits.push((asker, *txn))?;
                }
            }
            Grant::Deadlock(_) => {}
        }
        Ok(())
    }

    pub fn release(&mut self, txn: TxnId) {
        self.locks.retain(|lock| lock.0 != txn);
        self.waits.retain(|wait| wait.0 != txn && wait.1 != txn);
    }
}

fn last_of(path: &[TxnId]) -> TxnId {
    path.last().copied().unwrap_or(0)
}

fn with(alloc: Global, path: &[TxnId], txn: TxnId) -> Result<Vec<TxnId>, AllocError> {
    let mut longer = Vec::from_slice(alloc, path)?;
    longer.push(txn)?;
    Ok(longer)
}

fn is_told_before(path: &[TxnId], other: &[TxnId]) -> bool {
    if path.len() != other.len() {
        return path.len() < other.len();
    }
    for (txn, rival) in path.iter().zip(other) {
        if txn != rival {
            return txn < rival;
        }
    }
    true
}

fn first_told(told: Option<Vec<TxnId>>, path: Vec<TxnId>) -> Vec<TxnId> {
    match told {
        Some(other) if is_told_before(&other, &path) => other,
        _ => path,
    }
}
