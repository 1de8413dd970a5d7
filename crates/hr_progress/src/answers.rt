//! Answers, compared where they stand among the replies.
ghost use Rattle.std.specs.Prelude.{◌≡◌, ◌+◌, ◌≤◌, length, map, option_copied, slice_get, IsTrue};
ghost use Rattle.hr_base.specs.declared.limits.TheConstants.{MAX_STATEMENTS};
ghost use Rattle.hr_history.specs.SameAnswers as history;
ghost use Rattle.hr_progress.specs.declared.attempt.Told.{Told};
ghost use Rattle.hr_progress.specs.declared.txn.Given.{Given};
ghost use Rattle.hr_progress.specs.Seen.{done_in, answer_at};
ghost use Rattle.hr_progress.specs.Kept.{is_answer, AreAnswers, told_places, given_places};

use crate::attempt::Told;
use crate::txn::Given;
use hr_engine::RunReply;
use hr_rel::{Answer, RunError};

/// Whether two answers are equal, as canonical ones are compared.
pub fn same_answer(a: &Answer, b: &Answer) -> bool
    ensures { result ≡ history.same_answer a.now b.now }
{
    match (a, b) {
        (Answer::Rows(a), Answer::Rows(b)) => a.cmp(b).is_eq(),
        (Answer::Count(a), Answer::Count(b)) => a == b,
        (Answer::Failed(a), Answer::Failed(b)) => same_error(a, b),
        _ => false,
    }
}

fn same_error(a: &RunError, b: &RunError) -> bool
    ensures { result ≡ history.same_error a.now b.now }
{
    match (a, b) {
        (RunError::DuplicateKey(a), RunError::DuplicateKey(b)) => a == b,
        (RunError::Overflow, RunError::Overflow) => true,
        (RunError::NullRefused(a), RunError::NullRefused(b)) => a == b,
        (RunError::TooManyRows, RunError::TooManyRows) => true,
        (RunError::Unfit, RunError::Unfit) => true,
        _ => false,
    }
}

// Whether the answers at two places are equal. At one and the same place they are.
fn same_at(replies: &[RunReply], a: usize, b: usize) -> bool
    requires first { IsTrue (is_answer (slice_get replies.now a)) }
    requires second { IsTrue (is_answer (slice_get replies.now b)) }
    ensures { result ≡ history.same_answer (answer_at replies.now a) (answer_at replies.now b) }
{
    if a == b {
        return true;
    }
    match (done_at(replies, a), done_at(replies, b)) {
        (Some(a), Some(b)) => same_answer(a, b),
        _ => false,
    }
}

/// The answer that stands at a place, if one does.
pub fn done_at(replies: &[RunReply], place: usize) -> Option<&Answer>
    ensures { option_copied result ≡ done_in (slice_get replies.now place) }
{
    match replies.get(place) {
        Some(RunReply::Done(answer)) => Some(answer),
        _ => None,
    }
}

/// Whether an attempt's answers are the given ones.
pub fn same_as_given(replies: &[RunReply], told: &[Told], given: &[Given]) -> bool
    requires told { AreAnswers replies.now (told_places replies.now told.now) }
    requires given { AreAnswers replies.now (given_places replies.now given.now) }
    requires few { length given.now ≤ MAX_STATEMENTS }
    ensures { result ≡ history.same_answers (map (λ (t : Told). answer_at replies.now t.reply) told.now) (map (λ (g : Given). answer_at replies.now g.reply) given.now) }
{
    told.len() == given.len() && first_difference(replies, told, given) as usize > told.len()
}

/// The number, from 1, of the first answer of an attempt that isn't the given one; past the end of either where none
/// differs.
pub fn first_difference(replies: &[RunReply], told: &[Told], given: &[Given]) -> u32
    requires told { AreAnswers replies.now (told_places replies.now told.now) }
    requires given { AreAnswers replies.now (given_places replies.now given.now) }
    requires few { length given.now ≤ MAX_STATEMENTS }
    ensures { result ≡ history.first_difference (map (λ (t : Told). answer_at replies.now t.reply) told.now) (map (λ (g : Given). answer_at replies.now g.reply) given.now) }
{
    let mut same = 0;
    'answers: while same < told.len() && same < given.len() {
        if !same_at(replies, told[same].reply, given[same].reply) {
            return same as u32 + 1;
        }
        same += 1;
    }
    same as u32 + 1
}

/// Whether two attempts have the same answers.
pub fn same_attempts(replies: &[RunReply], told: &[Told], other: &[Told]) -> bool
    requires told { AreAnswers replies.now (told_places replies.now told.now) }
    requires other { AreAnswers replies.now (told_places replies.now other.now) }
    ensures { result ≡ history.same_answers (map (λ (t : Told). answer_at replies.now t.reply) told.now) (map (λ (t : Told). answer_at replies.now t.reply) other.now) }
{
    if told.len() != other.len() {
        return false;
    }
    'answers: for place in 0..told.len() {
        if !same_at(replies, told[place].reply, other[place].reply) {
            return false;
        }
    }
    true
}
