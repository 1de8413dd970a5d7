//! INSERT.

ghost use Rattle.std.specs.Prelude.{[]};
ghost use Rattle.hr_parse.specs.Grammar as spec;
ghost use Rattle.hr_parse.specs.Readers.{Reads, alone};

use crate::ast::{InsertAst, LiteralAst, NameAt, TupleAst};
use crate::list::{Part, listed};
use crate::parser::{Parser, Stop};
use crate::word::{Mark, Sign};
use hr_lex::Keyword;
use hr_rel::Seq;

impl<'a> Parser<'a> {
    /// `tuple = "(" literal { "," literal } ")"`
    #[tactic(auto, unfolding(crate::specs::Grammar::tuple))]
    fn tuple(&mut self, depth: usize) -> Result<TupleAst, Stop>
        ensures { Reads ((spec.tuple depth).reads self.old.rest.now) result self.new.rest.now }
    {
        let at = self.expect(Mark::Sign(Sign::LeftParen))?;
        let values = listed::<LiteralAst>(self, depth)?;
        self.expect(Mark::Sign(Sign::RightParen))?;
        Ok(TupleAst { values, at })
    }

    /// A tuple, and then the end.
    pub fn only_tuple(&mut self, depth: usize) -> Result<TupleAst, Stop>
        ensures { Reads (alone (spec.tuple depth).reads self.old.rest.now) result self.new.rest.now }
    {
        let tuple = self.tuple(depth)?;
        self.expect_end()?;
        Ok(tuple)
    }

    /// `[ "(" name { "," name } ")" ]`
    #[tactic(auto, unfolding(crate::specs::Grammar::named_columns))]
    fn named_columns(&mut self, depth: usize) -> Result<Seq<NameAt>, Stop>
        ensures { Reads ((spec.named_columns depth).reads self.old.rest.now) result self.new.rest.now }
    {
        if self.eat(Mark::Sign(Sign::LeftParen)) {
            let columns = listed::<NameAt>(self, depth)?;
            self.expect(Mark::Sign(Sign::RightParen))?;
            Ok(columns)
        } else {
            Ok(Seq::new(self.alloc))
        }
    }

    /// What stands behind INSERT.
    #[tactic(auto, unfolding(crate::specs::Grammar::insert))]
    pub fn insert(&mut self, depth: usize) -> Result<InsertAst, Stop>
        ensures { Reads ((spec.insert depth).reads self.old.rest.now) result self.new.rest.now }
    {
        self.expect(Mark::Keyword(Keyword::Into))?;
        let table = self.name()?;
        let columns = self.named_columns(depth)?;
        self.expect(Mark::Keyword(Keyword::Values))?;
        let tuples = listed::<TupleAst>(self, depth)?;
        Ok(InsertAst {
            table,
            columns,
            tuples,
        })
    }
}

impl Part for TupleAst {
    ghost reader = { λ n. (spec.tuple n).reads };

    fn part(parser: &mut Parser<'_>, depth: usize) -> Result<TupleAst, Stop> {
        parser.tuple(depth)
    }
}
