//! Conditions: what is wrong with them.
ghost use Rattle.std.specs.Prelude.{◌≡◌};
ghost use Rattle.hr_problem.specs.Problems.{least};
ghost use Rattle.hr_check.specs.Conditions as spec;
ghost use Rattle.hr_names.specs.Seen.{seen};

use hr_names::{
    ScopeRef, literal_kind, literal_problem, mismatch, operand_at, operand_kind, operand_problem,
};
use hr_parse::{CondAst, LiteralAst, OperandAst};
use hr_problem::{Problem, none_at_all, sooner};

/// An operand that is compared with the one on its left.
#[tactic(auto, using(hr_problem::proofs::Least::least_append))]
fn against(scope: ScopeRef, left: &OperandAst, right: &OperandAst) -> Option<Problem>
    ensures { result ≡ least (spec.against (seen scope.entry) left.now right.now) }
{
    let own = operand_problem(scope, right);
    let kind = operand_kind(scope, left);
    sooner(
        own,
        mismatch(kind, operand_kind(scope, right), operand_at(right)),
    )
}

/// Each literal of a list is compared so.
#[tactic(auto, using(hr_problem::proofs::Least::least_append))]
fn against_each(scope: ScopeRef, left: &OperandAst, list: &[LiteralAst]) -> Option<Problem>
    ensures { result ≡ least (spec.against_each (seen scope.entry) left.now list.now) }
{
    match list {
        [] => None,
        [literal, rest @ ..] => {
            let own = literal_problem(literal);
            let kind = literal_kind(&literal.value);
            let differs = mismatch(operand_kind(scope, left), kind, literal.at);
            sooner(sooner(own, differs), against_each(scope, left, rest))
        }
    }
}

#[tactic(auto, using(hr_problem::proofs::Least::least_append))]
fn between_problem(
    scope: ScopeRef,
    left: &OperandAst,
    low: &OperandAst,
    high: &OperandAst,
) -> Option<Problem>
    ensures { result ≡ least (spec.between_problems (seen scope.entry) left.now low.now high.now) }
{
    let own = operand_problem(scope, left);
    let front = sooner(own, against(scope, left, low));
    sooner(front, against(scope, left, high))
}

#[tactic(auto, using(hr_problem::proofs::Least::least_append))]
fn among_problem(scope: ScopeRef, left: &OperandAst, list: &[LiteralAst]) -> Option<Problem>
    ensures { result ≡ least (spec.among_problems (seen scope.entry) left.now list.now) }
{
    let empty = none_at_all(list);
    let front = sooner(empty, operand_problem(scope, left));
    sooner(front, against_each(scope, left, list))
}

/// The least problem of a condition.
#[tactic(auto, using(hr_problem::proofs::Least::least_append))]
pub fn cond_problem(scope: ScopeRef, cond: &CondAst) -> Option<Problem>
    ensures { result ≡ least (spec.cond_problems (seen scope.entry) cond.now) }
{
    match cond {
        CondAst::Or(a, b) | CondAst::And(a, b) => {
            sooner(cond_problem(scope, a.get()), cond_problem(scope, b.get()))
        }
        CondAst::Not(a) => cond_problem(scope, a.get()),
        CondAst::Compare(_, left, right) => sooner(
            operand_problem(scope, left.get()),
            against(scope, left.get(), right.get()),
        ),
        CondAst::IsNull { operand, .. } => operand_problem(scope, operand.get()),
        CondAst::Between {
            operand,
            low,
            high,
            ..
        } => between_problem(scope, operand.get(), low.get(), high.get()),
        CondAst::Among { operand, list, .. } => {
            among_problem(scope, operand.get(), list.as_slice())
        }
    }
}

pub fn filter_problem(scope: ScopeRef, filter: &Option<CondAst>) -> Option<Problem>
    ensures { result ≡ least (spec.filter_problems (seen scope.entry) filter.now) }
{
    match filter {
        Some(cond) => cond_problem(scope, cond),
        None => None,
    }
}
