//! UPDATE.

ghost use Rattle.hr_parse.specs.Grammar as spec;
ghost use Rattle.hr_parse.specs.Readers.{Reads};

use crate::ast::{SetAst, UpdateAst};
use crate::list::{Part, listed};
use crate::parser::{Parser, Stop};
use crate::word::Mark;
use hr_lex::Keyword;

impl<'a> Parser<'a> {
    /// `name "=" expr`
    #[tactic(auto, unfolding(crate::specs::Grammar::assignment))]
    fn assignment(&mut self, depth: usize) -> Result<SetAst, Stop>
        ensures { Reads ((spec.assignment depth).reads self.old.rest.now) result self.new.rest.now }
    {
        let column = self.name()?;
        self.expect_equal()?;
        let value = self.expr(depth)?;
        Ok(SetAst { column, value })
    }

    /// What stands behind UPDATE.
    #[tactic(auto, unfolding(crate::specs::Grammar::update))]
    pub fn update(&mut self, depth: usize) -> Result<UpdateAst, Stop>
        ensures { Reads ((spec.update depth).reads self.old.rest.now) result self.new.rest.now }
    {
        let table = self.name()?;
        self.expect(Mark::Keyword(Keyword::Set))?;
        let sets = listed::<SetAst>(self, depth)?;
        let filter = self.filter(depth)?;
        Ok(UpdateAst {
            table,
            sets,
            filter,
        })
    }
}

impl Part for SetAst {
    ghost reader = { λ n. (spec.assignment n).reads };

    fn part(parser: &mut Parser<'_>, depth: usize) -> Result<SetAst, Stop> {
        parser.assignment(depth)
    }
}
