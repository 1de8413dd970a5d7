//! Conditions. A parenthesis and a NOT go one level deeper; AND and OR are read by loops.

ghost use Rattle.hr_parse.specs.Grammar as spec;
ghost use Rattle.hr_parse.specs.Readers.{Reads};

use crate::ast::{CondAst, LiteralAst, OperandAst};
use crate::list::listed;
use crate::parser::{Parser, Stop, deeper};
use crate::word::{Mark, Sign};
use hr_lex::Keyword;
use sqlite_items::Boxed;

impl<'a> Parser<'a> {
    /// What stands behind BETWEEN.
    #[tactic(auto, unfolding(crate::specs::Grammar::between))]
    fn between(&mut self, operand: Boxed<OperandAst>, negated: bool) -> Result<Boxed<CondAst>, Stop>
        ensures { Reads ((spec.between operand negated).reads self.old.rest.now) result self.new.rest.now }
    {
        let low = self.boxed_operand()?;
        self.expect(Mark::Keyword(Keyword::And))?;
        let high = self.boxed_operand()?;
        let between = CondAst::Between {
            operand,
            low,
            high,
            negated,
        };
        Ok(Boxed::new(self.alloc, between)?)
    }

    /// What stands behind IN.
    #[tactic(auto, unfolding(crate::specs::Grammar::among))]
    fn among(
        &mut self,
        depth: usize,
        operand: Boxed<OperandAst>,
        negated: bool,
    ) -> Result<Boxed<CondAst>, Stop>
        ensures { Reads ((spec.among depth operand negated).reads self.old.rest.now) result self.new.rest.now }
    {
        self.expect(Mark::Sign(Sign::LeftParen))?;
        let list = listed::<LiteralAst>(self, depth)?;
        self.expect(Mark::Sign(Sign::RightParen))?;
        let among = CondAst::Among {
            operand,
            list,
            negated,
        };
        Ok(Boxed::new(self.alloc, among)?)
    }

    /// What stands behind IS.
    #[tactic(auto, unfolding(crate::specs::Grammar::nullity))]
    fn nullity(&mut self, operand: Boxed<OperandAst>) -> Result<Boxed<CondAst>, Stop>
        ensures { Reads ((spec.nullity operand).reads self.old.rest.now) result self.new.rest.now }
    {
        let negated = self.eat(Mark::Keyword(Keyword::Not));
        self.expect(Mark::Keyword(Keyword::Null))?;
        Ok(Boxed::new(self.alloc, CondAst::IsNull { operand, negated })?)
    }

    /// `[ NOT ] BETWEEN operand AND operand | [ NOT ] IN "(" literal { "," literal } ")"`
    #[tactic(auto, unfolding(crate::specs::Grammar::range_or_list))]
    fn range_or_list(
        &mut self,
        depth: usize,
        operand: Boxed<OperandAst>,
    ) -> Result<Boxed<CondAst>, Stop>
        ensures { Reads ((spec.range_or_list depth operand).reads self.old.rest.now) result self.new.rest.now }
    {
        let negated = self.eat(Mark::Keyword(Keyword::Not));
        if self.eat(Mark::Keyword(Keyword::Between)) {
            self.between(operand, negated)
        } else if self.eat(Mark::Keyword(Keyword::In)) {
            self.among(depth, operand, negated)
        } else {
            Err(Stop::Unexpected)
        }
    }

    /// `check = compare operand | IS [ NOT ] NULL | ..`, behind its left operand.
    #[tactic(auto, unfolding(crate::specs::Grammar::check))]
    fn check(&mut self, depth: usize, operand: Boxed<OperandAst>) -> Result<Boxed<CondAst>, Stop>
        ensures { Reads ((spec.check depth operand).reads self.old.rest.now) result self.new.rest.now }
    {
        if let Some(op) = self.eat_compare() {
            let right = self.boxed_operand()?;
            Ok(Boxed::new(self.alloc, CondAst::Compare(op, operand, right))?)
        } else if self.eat(Mark::Keyword(Keyword::Is)) {
            self.nullity(operand)
        } else {
            self.range_or_list(depth, operand)
        }
    }

    /// `operand check`
    #[tactic(auto, unfolding(crate::specs::Grammar::predicate))]
    fn predicate(&mut self, depth: usize) -> Result<Boxed<CondAst>, Stop>
        ensures { Reads ((spec.predicate depth).reads self.old.rest.now) result self.new.rest.now }
    {
        let operand = self.boxed_operand()?;
        self.check(depth, operand)
    }

    /// `neg = NOT neg | "(" cond ")" | operand check`
    #[cycle(cond)]
    #[tactic(auto, unfolding(crate::specs::Grammar::read_tied))]
    fn neg(&mut self, depth: usize) -> Result<Boxed<CondAst>, Stop>
        ensures { Reads (spec.read_tied spec.conditions 0 depth self.old.rest.now) result self.new.rest.now }
    {
        let depth = deeper(depth)?;
        if self.eat(Mark::Keyword(Keyword::Not)) {
            let inner = self.neg(depth)?;
            Ok(Boxed::new(self.alloc, CondAst::Not(inner))?)
        } else if self.eat(Mark::Sign(Sign::LeftParen)) {
            let inner = self.boxed_cond(depth)?;
            self.expect(Mark::Sign(Sign::RightParen))?;
            Ok(inner)
        } else {
            self.predicate(depth)
        }
    }

    /// `conj = neg { AND neg }`
    #[cycle(cond)]
    #[tactic(auto, unfolding(crate::specs::Grammar::read_tied))]
    fn conj(&mut self, depth: usize) -> Result<Boxed<CondAst>, Stop>
        ensures { Reads (spec.read_tied spec.conditions 1 depth self.old.rest.now) result self.new.rest.now }
    {
        let depth = deeper(depth)?;
        let mut left = self.neg(depth)?;
        let mut turns = deeper(depth)?;
        'ands: while self.eat(Mark::Keyword(Keyword::And)) {
            let right = self.neg(turns)?;
            left = Boxed::new(self.alloc, CondAst::And(left, right))?;
            turns = deeper(turns)?;
        }
        Ok(left)
    }

    /// `cond = conj { OR conj }`
    #[cycle(cond)]
    #[tactic(auto, unfolding(crate::specs::Grammar::read_tied))]
    fn boxed_cond(&mut self, depth: usize) -> Result<Boxed<CondAst>, Stop>
        ensures { Reads (spec.read_tied spec.conditions 2 depth self.old.rest.now) result self.new.rest.now }
    {
        let depth = deeper(depth)?;
        let mut left = self.conj(depth)?;
        let mut turns = deeper(depth)?;
        'ors: while self.eat(Mark::Keyword(Keyword::Or)) {
            let right = self.conj(turns)?;
            left = Boxed::new(self.alloc, CondAst::Or(left, right))?;
            turns = deeper(turns)?;
        }
        Ok(left)
    }

    /// A condition.
    pub fn cond(&mut self, depth: usize) -> Result<CondAst, Stop>
        ensures { Reads (spec.read_tied spec.conditions 2 depth self.old.rest.now) result self.new.rest.now }
    {
        Ok(self.boxed_cond(depth)?.into_inner())
    }
}
