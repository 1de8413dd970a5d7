//! The words that are still to be read, and how rules take them.

ghost use Rattle.std.specs.Prelude.{◌≡◌, suc, MatchResult};
ghost use Rattle.hr_parse.specs.Readers as spec;
ghost use Rattle.hr_parse.specs.Readers.{Eats, Reads};

use crate::word::{Lexeme, Mark, Word, is_mark};
use hr_rel::Op;
use std::alloc::{AllocError, Global};

/// Why a rule of the grammar isn't read.
#[derive(Clone, Copy, Debug)]
pub enum Stop {
    /// No word may stand here that does, or the words end too early.
    Unexpected,
    /// Memory ran out.
    Memory,
}

impl From<AllocError> for Stop {
    ghost use Rattle.std.specs.Prelude.{◌≡◌};
    ghost use Rattle.hr_parse.specs.declared.parser.Stop.TheVariants.{Memory};

    ghost from_gives = { λ _ e. e ≡ Memory };

    fn from(_error: AllocError) -> Stop {
        Stop::Memory
    }
}

/// One level deeper, or one turn more. Both are bounded by the number of words, so the bound is never met.
pub fn deeper(depth: usize) -> Result<usize, Stop>
    ensures { MatchResult result (λ less. depth ≡ suc less) (λ e. (e ≡ Stop.Unexpected) × (depth ≡ 0)) }
{
    match depth.checked_sub(1) {
        Some(less) => Ok(less),
        None => Err(Stop::Unexpected),
    }
}

/// The words that are still to be read. After [`Stop::Unexpected`], the first of them is the unexpected one.
#[derive(Drop)]
pub struct Parser<'a> {
    pub alloc: Global,
    pub rest: &'a [Lexeme],
}

impl<'a> Parser<'a> {
    /// The place of the next word, and 0 where there is none.
    pub fn place(&self) -> u32
        ensures { result ≡ spec.place self.now.rest.now }
    {
        match self.rest {
            [first, ..] => first.at,
            [] => 0,
        }
    }

    /// Whether a name comes next.
    pub fn sees_name(&self) -> bool
        ensures { result ≡ spec.sees_name self.now.rest.now }
    {
        match self.rest {
            [first, ..] => matches!(&first.word, Word::Name(_)),
            [] => false,
        }
    }

    /// Takes this mark, where it comes next.
    pub fn eat(&mut self, mark: Mark) -> bool
        ensures found { result ≡ spec.sees mark self.old.rest.now }
        ensures after { self.new.rest.now ≡ spec.after mark self.old.rest.now }
    {
        if let [first, rest @ ..] = self.rest
            && is_mark(mark, &first.word)
        {
            self.rest = rest;
            true
        } else {
            false
        }
    }

    /// Takes this mark, where it comes next, and gives its place.
    pub fn eat_at(&mut self, mark: Mark) -> Option<u32>
        ensures { Eats mark self.old.rest.now result self.new.rest.now }
    {
        let at = self.place();
        if self.eat(mark) { Some(at) } else { None }
    }

    /// Takes this mark, which has to come next, and gives its place.
    pub fn expect(&mut self, mark: Mark) -> Result<u32, Stop>
        ensures { Reads (spec.expect mark self.old.rest.now) result self.new.rest.now }
    {
        let at = self.place();
        if self.eat(mark) {
            Ok(at)
        } else {
            Err(Stop::Unexpected)
        }
    }

    /// Takes a comparison, where one comes next.
    pub fn eat_compare(&mut self) -> Option<Op>
        ensures found { result ≡ spec.sees_compare self.old.rest.now }
        ensures after { self.new.rest.now ≡ spec.after_compare self.old.rest.now }
    {
        if let [first, rest @ ..] = self.rest
            && let Word::Compare(op) = &first.word
        {
            self.rest = rest;
            Some(*op)
        } else {
            None
        }
    }

    /// Takes a `=`, which has to come next.
    #[tactic(auto, unfolding(crate::specs::Readers::expect_equal))]
    pub fn expect_equal(&mut self) -> Result<(), Stop>
        ensures { Reads (spec.expect_equal self.old.rest.now) result self.new.rest.now }
    {
        if let [first, rest @ ..] = self.rest
            && let Word::Compare(Op::Eq) = &first.word
        {
            self.rest = rest;
            Ok(())
        } else {
            Err(Stop::Unexpected)
        }
    }

    /// The end of the words.
    pub fn expect_end(&mut self) -> Result<(), Stop>
        ensures { Reads (spec.expect_end self.old.rest.now) result self.new.rest.now }
    {
        match self.rest {
            [] => Ok(()),
            _ => Err(Stop::Unexpected),
        }
    }
}
