//! What may be wrong with a statement, and which of several problems is told.
ghost use Rattle.std.specs.Prelude.{◌≡◌, List, [], Option, Some, None};
ghost use Rattle.hr_problem.specs.declared.problem.Problem.{Problem};
ghost use Rattle.hr_problem.specs.Problems as spec;
ghost use Rattle.hr_problem.specs.Problems.{least, IsLeast};
ghost use Rattle.hr_problem.specs.Sooner as told;

use std::fmt;

/// A problem of a statement, and the place in its text where it stands, in bytes from 0.
#[derive(Clone, Copy, Debug, PartialEq, Eq)]
pub struct Problem {
    pub kind: ProblemKind,
    pub place: u32,
}

/// What is wrong. Of two problems at one place the one that is listed first here is told.
#[derive(Clone, Copy, Debug, PartialEq, Eq)]
pub enum ProblemKind {
    /// The catalog has no table of this name.
    UnknownTable,
    /// No table entry that may be meant has a column of this name.
    UnknownColumn,
    /// A number where a text is wanted, or a text where a number is.
    TypeMismatch,
    /// An UPDATE assigns the key.
    KeyAssigned,
    /// A tuple has more or fewer values than columns, or an answer has more columns than it may have.
    WrongArity,
    /// A text has more bytes than a value may have.
    TextTooLong,
    /// The SELECT groups, and an item is neither an aggregate nor a column of GROUP BY.
    AggregateMix,
    /// Both table entries are called the same, or a column is named twice.
    NameTwice,
    /// Both table entries have a column of this name.
    Ambiguous,
}

impl fmt::Display for ProblemKind {
    fn fmt<W: fmt::Write>(&self, f: &mut fmt::Formatter<W>) -> fmt::Result {
        f.write_str(match self {
            ProblemKind::UnknownTable => "no such table",
            ProblemKind::UnknownColumn => "no such column",
            ProblemKind::TypeMismatch => "a number and a text don't go together here",
            ProblemKind::KeyAssigned => "the key can't be assigned",
            ProblemKind::WrongArity => "too many or too few values",
            ProblemKind::TextTooLong => "a text of more than 64 bytes",
            ProblemKind::AggregateMix => "neither an aggregate nor a column of GROUP BY",
            ProblemKind::NameTwice => "the same name twice",
            ProblemKind::Ambiguous => "both tables have a column of this name",
        })
    }
}

impl fmt::Display for Problem {
    fn fmt<W: fmt::Write>(&self, f: &mut fmt::Formatter<W>) -> fmt::Result {
        write!(f, "at {}: {}", self.place, self.kind)
    }
}

/// The number of a kind: of two problems at one place the one with the lower number is told.
fn number(kind: ProblemKind) -> u8
    ensures { result ≡ spec.number kind }
{
    match kind {
        ProblemKind::UnknownTable => 1,
        ProblemKind::UnknownColumn => 2,
        ProblemKind::TypeMismatch => 3,
        ProblemKind::KeyAssigned => 4,
        ProblemKind::WrongArity => 5,
        ProblemKind::TextTooLong => 6,
        ProblemKind::AggregateMix => 7,
        ProblemKind::NameTwice => 8,
        ProblemKind::Ambiguous => 9,
    }
}

#[tactic(auto, unfolding(crate::specs::Problems::is_before))]
fn is_before(p: Problem, q: Problem) -> bool
    ensures { result ≡ spec.is_before p q }
{
    p.place < q.place || p.place == q.place && number(p.kind) < number(q.kind)
}

/// The least problem of a list is in it, and none of the list is before it; a list that has no least problem is empty.
#[tactic(auto, using(crate::proofs::First::first_of_all, crate::proofs::First::empty_of))]
pub fn least_is_first()
    ensures first { (problems : List Problem) (p : Problem) → least problems ≡ Some p → IsLeast problems p }
    ensures none { (problems : List Problem) → least problems ≡ None → problems ≡ [] }
{}

/// Of two problems that may be there, the one that is told.
pub fn sooner(first: Option<Problem>, second: Option<Problem>) -> Option<Problem>
    ensures { result ≡ told.sooner first second }
{
    match (first, second) {
        (Some(p), Some(q)) => Some(if is_before(q, p) { q } else { p }),
        (Some(p), None) => Some(p),
        (None, second) => second,
    }
}

/// A problem, where the test says so.
pub fn problem_where(test: bool, kind: ProblemKind, place: u32) -> Option<Problem>
    ensures { result ≡ least (spec.problem_where test kind place) }
{
    if test {
        Some(Problem { kind, place })
    } else {
        None
    }
}

/// A list without parts, which no statement's text has.
pub fn none_at_all<T>(all: &[T]) -> Option<Problem>
    ensures { result ≡ least (spec.none_at_all all.now) }
{
    match all {
        [] => Some(Problem {
            kind: ProblemKind::WrongArity,
            place: 0,
        }),
        [_, ..] => None,
    }
}
