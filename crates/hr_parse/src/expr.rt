//! Expressions. A parenthesis goes one level deeper; `*`, `+` and `-` are read by loops.

ghost use Rattle.std.specs.Prelude.{◌≡◌, IfOk};
ghost use Rattle.hr_parse.specs.Grammar as spec;
ghost use Rattle.hr_parse.specs.Readers.{Reads};
ghost use Rattle.hr_parse.specs.Trees as tree;

use crate::ast::{ExprAst, ExprKind, OperandAst};
use crate::parser::{Parser, Stop, deeper};
use crate::word::{Mark, Sign};
use sqlite_items::Boxed;
use std::alloc::{AllocError, Global};

#[derive(Clone, Copy)]
enum Operator {
    Add,
    Sub,
    Mul,
}

/// The expression of an operator, which begins where its left part does.
fn binary(
    alloc: Global,
    operator: Operator,
    left: Boxed<ExprAst>,
    right: Boxed<ExprAst>,
) -> Result<Boxed<ExprAst>, AllocError>
    ensures { IfOk result (λ e. e ≡ tree.binary operator left right) }
{
    let at = left.get().at;
    let kind = match operator {
        Operator::Add => ExprKind::Add(left, right),
        Operator::Sub => ExprKind::Sub(left, right),
        Operator::Mul => ExprKind::Mul(left, right),
    };
    Boxed::new(alloc, ExprAst { kind, at })
}

/// The expression that begins at `at`, with its opening parenthesis.
fn placed(alloc: Global, inner: Boxed<ExprAst>, at: u32) -> Result<Boxed<ExprAst>, AllocError>
    ensures { IfOk result (λ e. e ≡ tree.placed inner at) }
{
    let ExprAst { kind, at: _ } = inner.into_inner();
    Boxed::new(alloc, ExprAst { kind, at })
}

/// An operand as an expression.
fn simple(alloc: Global, operand: OperandAst) -> Result<Boxed<ExprAst>, AllocError>
    ensures { IfOk result (λ e. e ≡ tree.simple operand) }
{
    match operand {
        OperandAst::Column(column) => {
            let at = column.first.at;
            let kind = ExprKind::Column(Boxed::new(alloc, column)?);
            Boxed::new(alloc, ExprAst { kind, at })
        }
        OperandAst::Literal(literal) => {
            let at = literal.at;
            let kind = ExprKind::Literal(Boxed::new(alloc, literal)?);
            Boxed::new(alloc, ExprAst { kind, at })
        }
    }
}

impl<'a> Parser<'a> {
    /// `factor = literal | column | "(" expr ")"`
    #[cycle(terms)]
    #[tactic(auto, unfolding(crate::specs::Grammar::read_tied))]
    fn factor(&mut self, depth: usize) -> Result<Boxed<ExprAst>, Stop>
        ensures { Reads (spec.read_tied spec.expressions 0 depth self.old.rest.now) result self.new.rest.now }
    {
        let depth = deeper(depth)?;
        if let Some(at) = self.eat_at(Mark::Sign(Sign::LeftParen)) {
            let inner = self.boxed_expr(depth)?;
            self.expect(Mark::Sign(Sign::RightParen))?;
            Ok(placed(self.alloc, inner, at)?)
        } else {
            let operand = self.operand()?;
            Ok(simple(self.alloc, operand)?)
        }
    }

    /// `term = factor { "*" factor }`
    #[cycle(terms)]
    #[tactic(auto, unfolding(crate::specs::Grammar::read_tied))]
    fn term(&mut self, depth: usize) -> Result<Boxed<ExprAst>, Stop>
        ensures { Reads (spec.read_tied spec.expressions 1 depth self.old.rest.now) result self.new.rest.now }
    {
        let depth = deeper(depth)?;
        let mut left = self.factor(depth)?;
        let mut turns = deeper(depth)?;
        'factors: while self.eat(Mark::Sign(Sign::Star)) {
            let right = self.factor(turns)?;
            left = binary(self.alloc, Operator::Mul, left, right)?;
            turns = deeper(turns)?;
        }
        Ok(left)
    }

    /// `expr = term { ( "+" | "-" ) term }`
    #[cycle(terms)]
    #[tactic(auto, unfolding(crate::specs::Grammar::read_tied))]
    fn boxed_expr(&mut self, depth: usize) -> Result<Boxed<ExprAst>, Stop>
        ensures { Reads (spec.read_tied spec.expressions 2 depth self.old.rest.now) result self.new.rest.now }
    {
        let depth = deeper(depth)?;
        let mut left = self.term(depth)?;
        let mut turns = depth;
        'terms: loop {
            turns = deeper(turns)?;
            if self.eat(Mark::Sign(Sign::Plus)) {
                let right = self.term(turns)?;
                left = binary(self.alloc, Operator::Add, left, right)?;
            } else if self.eat(Mark::Sign(Sign::Minus)) {
                let right = self.term(turns)?;
                left = binary(self.alloc, Operator::Sub, left, right)?;
            } else {
                return Ok(left);
            }
        }
    }

    /// An expression.
    pub fn expr(&mut self, depth: usize) -> Result<ExprAst, Stop>
        ensures { Reads (spec.read_tied spec.expressions 2 depth self.old.rest.now) result self.new.rest.now }
    {
        Ok(self.boxed_expr(depth)?.into_inner())
    }
}
