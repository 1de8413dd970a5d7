//! What is locked: items with numbers.
ghost use Rattle.std.specs.Prelude.{◌==◌};
ghost use Rattle.hr_base.proofs.Tests.{eq_turn};

use hr_locks::{LockName, Mode, Need};
use std::alloc::{AllocError, Global};

#[derive(Clone, Copy)]
pub struct Item {
    pub number: u64,
}

impl LockName for Item {
    ghost meets = { λ a b. a.number == b.number };

    fn meets(&self, other: &Item) -> bool {
        self.number == other.number
    }

    ghost symmetric = { λ a b. eq_turn a.number b.number };
}

pub fn read(number: u64) -> Need<Item> {
    Need {
        name: Item { number },
        mode: Mode::Shared,
    }
}

pub fn write(number: u64) -> Need<Item> {
    Need {
        name: Item { number },
        mode: Mode::Exclusive,
    }
}

/// The needs of words: those of the items behind a mode have it.
pub fn needs_of(alloc: Global, words: &str) -> Result<Vec<Need<Item>>, AllocError> {
    let mut needs = Vec::new(alloc);
    let mut is_write = false;
    for word in words.split(' ') {
        match word.parse() {
            Ok(number) if is_write => needs.push(write(number))?,
            Ok(number) => needs.push(read(number))?,
            Err(_) => is_write = word == "write",
        }
    }
    Ok(needs)
}
