//! SELECT.

ghost use Rattle.std.specs.Prelude.{[]};
ghost use Rattle.hr_parse.specs.Grammar as spec;
ghost use Rattle.hr_parse.specs.Readers.{Reads};

use crate::ast::{
    AggWord, ColumnAst, CondAst, EntryAst, ItemAst, Items, JoinAst, NameAt, SelectAst,
};
use crate::list::{Part, listed};
use crate::parser::{Parser, Stop};
use crate::word::{Mark, Sign};
use hr_lex::Keyword;
use hr_rel::Seq;

impl<'a> Parser<'a> {
    /// The column and `)` of an aggregate that begins at `at`.
    #[tactic(auto, unfolding(crate::specs::Grammar::aggregated))]
    fn aggregated(&mut self, word: AggWord, at: u32) -> Result<ItemAst, Stop>
        ensures { Reads ((spec.aggregated word at).reads self.old.rest.now) result self.new.rest.now }
    {
        let column = self.column()?;
        self.expect(Mark::Sign(Sign::RightParen))?;
        Ok(ItemAst::Aggregate { word, column, at })
    }

    /// What stands behind COUNT.
    #[tactic(auto, unfolding(crate::specs::Grammar::counted))]
    fn counted(&mut self, at: u32) -> Result<ItemAst, Stop>
        ensures { Reads ((spec.counted at).reads self.old.rest.now) result self.new.rest.now }
    {
        self.expect(Mark::Sign(Sign::LeftParen))?;
        if self.eat(Mark::Sign(Sign::Star)) {
            self.expect(Mark::Sign(Sign::RightParen))?;
            Ok(ItemAst::CountAll(at))
        } else {
            self.aggregated(AggWord::Count, at)
        }
    }

    /// What stands behind SUM, MIN or MAX.
    #[tactic(auto, unfolding(crate::specs::Grammar::folded))]
    fn folded(&mut self, word: AggWord, at: u32) -> Result<ItemAst, Stop>
        ensures { Reads ((spec.folded word at).reads self.old.rest.now) result self.new.rest.now }
    {
        self.expect(Mark::Sign(Sign::LeftParen))?;
        self.aggregated(word, at)
    }

    /// `item = aggregate | expr`
    #[tactic(auto, unfolding(crate::specs::Grammar::item))]
    fn item(&mut self, depth: usize) -> Result<ItemAst, Stop>
        ensures { Reads ((spec.item depth).reads self.old.rest.now) result self.new.rest.now }
    {
        if let Some(at) = self.eat_at(Mark::Keyword(Keyword::Count)) {
            self.counted(at)
        } else if let Some(at) = self.eat_at(Mark::Keyword(Keyword::Sum)) {
            self.folded(AggWord::Sum, at)
        } else if let Some(at) = self.eat_at(Mark::Keyword(Keyword::Min)) {
            self.folded(AggWord::Min, at)
        } else if let Some(at) = self.eat_at(Mark::Keyword(Keyword::Max)) {
            self.folded(AggWord::Max, at)
        } else {
            Ok(ItemAst::Plain(self.expr(depth)?))
        }
    }

    /// `items = "*" | item { "," item }`
    #[tactic(auto, unfolding(crate::specs::Grammar::items))]
    fn items(&mut self, depth: usize) -> Result<Items, Stop>
        ensures { Reads ((spec.items depth).reads self.old.rest.now) result self.new.rest.now }
    {
        if let Some(at) = self.eat_at(Mark::Sign(Sign::Star)) {
            Ok(Items::Star(at))
        } else {
            Ok(Items::Listed(listed::<ItemAst>(self, depth)?))
        }
    }

    /// `[ [ AS ] name ]`
    #[tactic(auto, unfolding(crate::specs::Grammar::alias))]
    fn alias(&mut self) -> Result<Option<NameAt>, Stop>
        ensures { Reads (spec.alias.reads self.old.rest.now) result self.new.rest.now }
    {
        if self.eat(Mark::Keyword(Keyword::As)) || self.sees_name() {
            Ok(Some(self.name()?))
        } else {
            Ok(None)
        }
    }

    /// `entry = name [ [ AS ] name ]`
    #[tactic(auto, unfolding(crate::specs::Grammar::entry))]
    fn entry(&mut self) -> Result<EntryAst, Stop>
        ensures { Reads (spec.entry.reads self.old.rest.now) result self.new.rest.now }
    {
        let table = self.name()?;
        let alias = self.alias()?;
        Ok(EntryAst { table, alias })
    }

    /// `entry ON cond`
    #[tactic(auto, unfolding(crate::specs::Grammar::joined))]
    fn joined(&mut self, depth: usize) -> Result<JoinAst, Stop>
        ensures { Reads ((spec.joined depth).reads self.old.rest.now) result self.new.rest.now }
    {
        let entry = self.entry()?;
        self.expect(Mark::Keyword(Keyword::On))?;
        let on = self.cond(depth)?;
        Ok(JoinAst { entry, on })
    }

    /// `[ [ INNER ] JOIN entry ON cond ]`
    #[tactic(auto, unfolding(crate::specs::Grammar::join))]
    fn join(&mut self, depth: usize) -> Result<Option<JoinAst>, Stop>
        ensures { Reads ((spec.join depth).reads self.old.rest.now) result self.new.rest.now }
    {
        if self.eat(Mark::Keyword(Keyword::Inner)) {
            self.expect(Mark::Keyword(Keyword::Join))?;
            Ok(Some(self.joined(depth)?))
        } else if self.eat(Mark::Keyword(Keyword::Join)) {
            Ok(Some(self.joined(depth)?))
        } else {
            Ok(None)
        }
    }

    /// `[ WHERE cond ]`
    #[tactic(auto, unfolding(crate::specs::Grammar::filter))]
    pub fn filter(&mut self, depth: usize) -> Result<Option<CondAst>, Stop>
        ensures { Reads ((spec.filter depth).reads self.old.rest.now) result self.new.rest.now }
    {
        if self.eat(Mark::Keyword(Keyword::Where)) {
            Ok(Some(self.cond(depth)?))
        } else {
            Ok(None)
        }
    }

    /// `[ GROUP BY column { "," column } ]`
    #[tactic(auto, unfolding(crate::specs::Grammar::groups))]
    fn groups(&mut self, depth: usize) -> Result<Seq<ColumnAst>, Stop>
        ensures { Reads ((spec.groups depth).reads self.old.rest.now) result self.new.rest.now }
    {
        if self.eat(Mark::Keyword(Keyword::Group)) {
            self.expect(Mark::Keyword(Keyword::By))?;
            listed::<ColumnAst>(self, depth)
        } else {
            Ok(Seq::new(self.alloc))
        }
    }

    /// What stands behind SELECT.
    #[tactic(auto, unfolding(crate::specs::Grammar::select))]
    pub fn select(&mut self, depth: usize) -> Result<SelectAst, Stop>
        ensures { Reads ((spec.select depth).reads self.old.rest.now) result self.new.rest.now }
    {
        let items = self.items(depth)?;
        self.expect(Mark::Keyword(Keyword::From))?;
        let first = self.entry()?;
        let join = self.join(depth)?;
        let filter = self.filter(depth)?;
        let groups = self.groups(depth)?;
        Ok(SelectAst {
            items,
            first,
            join,
            filter,
            groups,
        })
    }
}

impl Part for ItemAst {
    ghost reader = { λ n. (spec.item n).reads };

    fn part(parser: &mut Parser<'_>, depth: usize) -> Result<ItemAst, Stop> {
        parser.item(depth)
    }
}
