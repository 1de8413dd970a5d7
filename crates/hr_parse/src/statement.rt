//! A whole statement.

ghost use Rattle.hr_parse.specs.Grammar as spec;
ghost use Rattle.hr_parse.specs.Readers.{Reads, alone};

use crate::ast::Ast;
use crate::parser::{Parser, Stop};
use crate::word::{Mark, Sign};
use hr_lex::Keyword;

impl<'a> Parser<'a> {
    /// `select | insert | update | delete`
    #[tactic(auto, unfolding(crate::specs::Grammar::command))]
    fn command(&mut self, depth: usize) -> Result<Ast, Stop>
        ensures { Reads ((spec.command depth).reads self.old.rest.now) result self.new.rest.now }
    {
        if self.eat(Mark::Keyword(Keyword::Select)) {
            Ok(Ast::Select(self.select(depth)?))
        } else if self.eat(Mark::Keyword(Keyword::Insert)) {
            Ok(Ast::Insert(self.insert(depth)?))
        } else if self.eat(Mark::Keyword(Keyword::Update)) {
            Ok(Ast::Update(self.update(depth)?))
        } else if self.eat(Mark::Keyword(Keyword::Delete)) {
            Ok(Ast::Delete(self.delete(depth)?))
        } else {
            Err(Stop::Unexpected)
        }
    }

    /// `statement = ( select | insert | update | delete ) [ ";" ]`, and then the end.
    #[tactic(auto, unfolding(crate::specs::Grammar::statement))]
    pub fn statement(&mut self, depth: usize) -> Result<Ast, Stop>
        ensures { Reads (alone (spec.statement depth).reads self.old.rest.now) result self.new.rest.now }
    {
        let ast = self.command(depth)?;
        let _ended = self.eat(Mark::Sign(Sign::Semicolon));
        self.expect_end()?;
        Ok(ast)
    }
}
