//! Answers in canonical form, with their rows sorted, so that equal answers are one and the same value.
#![tactic(auto)]

ghost use Rattle.std.specs.Prelude.{◌≡◌, ◌↔◌, IsTrue};
ghost use Rattle.hr_meaning.specs.SameAnswer.{SameAnswer};
ghost use Rattle.hr_answer.specs.Canonical.{IsCanonical};

use hr_rel::{Answer, Row, RunError, Seq};

/// Sorts the rows of an answer: NULL before numbers before texts, rows value by value. Takes no memory.
pub fn canonical(answer: &mut Answer)
    ensures same { SameAnswer answer.old answer.new }
    ensures canonical { IsCanonical answer.new }
{
    if let Answer::Rows(rows) = answer {
        rows.sort();
    }
}

/// Whether two canonical answers are equal. Takes no memory.
pub fn same(a: &Answer, b: &Answer) -> bool
    requires first { IsCanonical a.now }
    requires second { IsCanonical b.now }
    ensures { IsTrue result ↔ SameAnswer a.now b.now }
{
    match (a, b) {
        (Answer::Rows(a), Answer::Rows(b)) => is_same_list(a, b),
        (Answer::Count(a), Answer::Count(b)) => a == b,
        (Answer::Failed(a), Answer::Failed(b)) => is_same_error(a, b),
        _ => false,
    }
}

fn is_same_list(a: &Seq<Row>, b: &Seq<Row>) -> bool
    ensures { IsTrue result ↔ (a.now ≡ b.now) }
{
    a.cmp(b).is_eq()
}

fn is_same_error(a: &RunError, b: &RunError) -> bool
    ensures { IsTrue result ↔ (a.now ≡ b.now) }
{
    match (a, b) {
        (RunError::DuplicateKey(a), RunError::DuplicateKey(b)) => a == b,
        (RunError::Overflow, RunError::Overflow) => true,
        (RunError::NullRefused(a), RunError::NullRefused(b)) => a == b,
        (RunError::TooManyRows, RunError::TooManyRows) => true,
        (RunError::Unfit, RunError::Unfit) => true,
        _ => false,
    }
}
