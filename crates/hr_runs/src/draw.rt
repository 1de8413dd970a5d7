//! A fixed generator of numbers.
ghost use Rattle.std.specs.Prelude.{◌<◌};

use crate::item::{Item, read, write};
use hr_locks::Need;
use std::alloc::{AllocError, Global};

/// The same numbers wherever it runs.
#[derive(Drop)]
pub struct Draw {
    pub state: u64,
}

impl Draw {
    fn next(&mut self) -> u64 {
        self.state ^= self.state << 13;
        self.state ^= self.state >> 7;
        self.state ^= self.state << 17;
        self.state
    }

    /// A number below a limit.
    pub fn below(&mut self, limit: u64) -> u64
        requires { 0 < limit }
        ensures { result < limit }
    {
        (self.next() >> 11) % limit
    }

    fn need(&mut self) -> Need<Item> {
        let number = self.below(30);
        if self.below(10) == 0 {
            read(number)
        } else {
            write(number)
        }
    }

    /// One need or two.
    pub fn needs(&mut self, alloc: Global) -> Result<Vec<Need<Item>>, AllocError> {
        let mut needs = Vec::new(alloc);
        needs.push(self.need())?;
        if self.below(10) == 0 {
            needs.push(self.need())?;
        }
        Ok(needs)
    }
}
