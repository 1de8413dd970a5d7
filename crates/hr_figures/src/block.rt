//! A value that counts the turns, with so many bytes beside the count.
ghost use Rattle.std.specs.Prelude.{◌≡◌, []};

use hr_turn::Kept;

/// What a value has beside its count.
pub trait Padding: Drop + Send {
    fn zeros() -> Self;
}

impl Padding for () {
    fn zeros() -> () {}
}

impl Padding for [u64; 9] {
    fn zeros() -> [u64; 9] {
        [0; 9]
    }
}

impl Padding for [u64; 62] {
    fn zeros() -> [u64; 62] {
        [0; 62]
    }
}

/// A value of 8 bytes and its padding. It keeps no entries: what is measured is the lock.
#[derive(Drop)]
pub struct Block<P: Padding> {
    pub turns: u64,
    padding: P,
}

impl<P: Padding> Kept for Block<P> {
    type Entry = u64;

    ghost entries = { λ block. [] };

    ghost caller = { λ entry. 0 };

    ghost fixed = { λ block. [] };
}

impl<P: Padding> Block<P> {
    pub fn new() -> Block<P>
        ensures { result.turns ≡ 0 }
    {
        Block {
            turns: 0,
            padding: P::zeros(),
        }
    }

    pub fn add(&mut self, turns: u64) {
        self.turns = self.turns.wrapping_add(turns);
    }
}
