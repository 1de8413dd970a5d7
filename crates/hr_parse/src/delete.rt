//! DELETE.

ghost use Rattle.hr_parse.specs.Grammar as spec;
ghost use Rattle.hr_parse.specs.Readers.{Reads};

use crate::ast::DeleteAst;
use crate::parser::{Parser, Stop};
use crate::word::Mark;
use hr_lex::Keyword;

impl<'a> Parser<'a> {
    /// What stands behind DELETE.
    #[tactic(auto, unfolding(crate::specs::Grammar::delete))]
    pub fn delete(&mut self, depth: usize) -> Result<DeleteAst, Stop>
        ensures { Reads ((spec.delete depth).reads self.old.rest.now) result self.new.rest.now }
    {
        self.expect(Mark::Keyword(Keyword::From))?;
        let table = self.name()?;
        let filter = self.filter(depth)?;
        Ok(DeleteAst { table, filter })
    }
}
