//! Names, columns, literals and operands.

ghost use Rattle.std.specs.Prelude.{◌≡◌};
ghost use Rattle.hr_parse.specs.Grammar as grammar;
ghost use Rattle.hr_parse.specs.Readers as spec;
ghost use Rattle.hr_parse.specs.Readers.{Reads};

use crate::ast::{ColumnAst, LitAst, LiteralAst, NameAt, OperandAst};
use crate::parser::{Parser, Stop};
use crate::word::{Mark, Sign, Word};
use hr_lex::Keyword;
use hr_rel::Seq;
use sqlite_items::Boxed;

/// The number behind a sign, where it is a signed number then.
fn negated(number: u64) -> Option<i64>
    ensures { result ≡ spec.negated number }
{
    if number > 9_223_372_036_854_775_808 {
        return None;
    }
    i64::try_from(-i128::from(number)).ok()
}

/// The number, where it is a signed one without a sign.
fn plain(number: u64) -> Option<i64>
    ensures { result ≡ spec.plain number }
{
    i64::try_from(number).ok()
}

impl<'a> Parser<'a> {
    #[tactic(auto, unfolding(crate::specs::Readers::read_name))]
    pub fn name(&mut self) -> Result<NameAt, Stop>
        ensures { Reads (spec.read_name self.old.rest.now) result self.new.rest.now }
    {
        if let [first, rest @ ..] = self.rest
            && let Word::Name(name) = &first.word
        {
            self.rest = rest;
            Ok(NameAt {
                name: *name,
                at: first.at,
            })
        } else {
            Err(Stop::Unexpected)
        }
    }

    /// `column = name [ "." name ]`
    #[tactic(auto, unfolding(crate::specs::Grammar::column))]
    pub fn column(&mut self) -> Result<ColumnAst, Stop>
        ensures { Reads (grammar.column.reads self.old.rest.now) result self.new.rest.now }
    {
        let first = self.name()?;
        let second = if self.eat(Mark::Sign(Sign::Dot)) {
            Some(self.name()?)
        } else {
            None
        };
        Ok(ColumnAst { first, second })
    }

    /// The number of a literal, behind its sign at `at`.
    #[tactic(auto, unfolding(crate::specs::Readers::negative))]
    fn negative(&mut self, at: u32) -> Result<LiteralAst, Stop>
        ensures { Reads (spec.negative at self.old.rest.now) result self.new.rest.now }
    {
        if let [first, rest @ ..] = self.rest
            && let Word::Number(number) = &first.word
            && let Some(value) = negated(*number)
        {
            self.rest = rest;
            Ok(LiteralAst {
                value: LitAst::Int(value),
                at,
            })
        } else {
            Err(Stop::Unexpected)
        }
    }

    /// A text, or a number without a sign.
    #[tactic(auto, unfolding(crate::specs::Readers::constant))]
    fn constant(&mut self) -> Result<LiteralAst, Stop>
        ensures { Reads (spec.constant self.old.rest.now) result self.new.rest.now }
    {
        let [first, rest @ ..] = self.rest else {
            return Err(Stop::Unexpected);
        };
        let value = match &first.word {
            Word::Text(text) => {
                let bytes = Vec::from_slice(self.alloc, text.as_slice())?;
                LitAst::Text(Seq::from_vec(bytes))
            }
            Word::Number(number) => LitAst::Int(plain(*number).ok_or(Stop::Unexpected)?),
            _ => return Err(Stop::Unexpected),
        };
        let at = first.at;
        self.rest = rest;
        Ok(LiteralAst { value, at })
    }

    /// `literal = [ "-" ] number | text | NULL`
    #[tactic(auto, unfolding(crate::specs::Grammar::literal))]
    pub fn literal(&mut self) -> Result<LiteralAst, Stop>
        ensures { Reads (grammar.literal.reads self.old.rest.now) result self.new.rest.now }
    {
        if let Some(at) = self.eat_at(Mark::Sign(Sign::Minus)) {
            self.negative(at)
        } else if let Some(at) = self.eat_at(Mark::Keyword(Keyword::Null)) {
            Ok(LiteralAst {
                value: LitAst::Null,
                at,
            })
        } else {
            self.constant()
        }
    }

    /// `operand = column | literal`
    #[tactic(auto, unfolding(crate::specs::Grammar::operand))]
    pub fn operand(&mut self) -> Result<OperandAst, Stop>
        ensures { Reads (grammar.operand.reads self.old.rest.now) result self.new.rest.now }
    {
        if self.sees_name() {
            Ok(OperandAst::Column(self.column()?))
        } else {
            Ok(OperandAst::Literal(self.literal()?))
        }
    }

    pub fn boxed_operand(&mut self) -> Result<Boxed<OperandAst>, Stop>
        ensures { Reads (grammar.operand.reads self.old.rest.now) result self.new.rest.now }
    {
        let operand = self.operand()?;
        Ok(Boxed::new(self.alloc, operand)?)
    }
}
