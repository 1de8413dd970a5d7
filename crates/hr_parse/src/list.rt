//! Lists of one part or more, with commas between.

ghost use Rattle.std.specs.Prelude.{[], ◌≡◌};
ghost use Rattle.hr_parse.specs.Grammar as grammar;
ghost use Rattle.hr_parse.specs.Readers as spec;
ghost use Rattle.hr_parse.specs.Readers.{Reads};

use crate::ast::{ColumnAst, LiteralAst, NameAt};
use crate::parser::{Parser, Stop, deeper};
use crate::word::{Mark, Sign};
use hr_rel::Seq;

/// What a list may be of.
pub trait Part: Drop {
    ghost use Rattle.std.specs.Prelude.{ℕ};
    ghost use Rattle.hr_parse.specs.Readers.{Reader};

    /// The reader of one part, with rules no deeper than this.
    ghost reader: { ℕ → Reader Self };

    fn part(parser: &mut Parser<'_>, depth: usize) -> Result<Self, Stop>
        ensures { Reads (reader depth parser.old.rest.now) result parser.new.rest.now };
}

impl Part for NameAt {
    ghost reader = { λ _. spec.read_name };

    fn part(parser: &mut Parser<'_>, _depth: usize) -> Result<NameAt, Stop> {
        parser.name()
    }
}

impl Part for ColumnAst {
    ghost reader = { λ _. grammar.column.reads };

    fn part(parser: &mut Parser<'_>, _depth: usize) -> Result<ColumnAst, Stop> {
        parser.column()
    }
}

impl Part for LiteralAst {
    ghost reader = { λ _. grammar.literal.reads };

    fn part(parser: &mut Parser<'_>, _depth: usize) -> Result<LiteralAst, Stop> {
        parser.literal()
    }
}

/// A list of one part or more, with commas between.
#[tactic(auto, unfolding(crate::specs::Readers::listed_behind))]
pub fn listed<T: Part>(parser: &mut Parser<'_>, depth: usize) -> Result<Seq<T>, Stop>
    ensures { Reads (spec.listed (T.reader depth) depth parser.old.rest.now) result parser.new.rest.now }
{
    let mut parts = Seq::new(parser.alloc);
    let mut most = depth;
    'parts: loop {
        most = deeper(most)?;
        parts.push(T::part(parser, depth)?)?;
        if !parser.eat(Mark::Sign(Sign::Comma)) {
            return Ok(parts);
        }
    }
}
