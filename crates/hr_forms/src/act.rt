//! What a backend that lies by a script does, as a line says it.

ghost use Rattle.std.specs.Prelude.{◌≡◌, IfOk};
ghost use Rattle.hr_forms.specs.Acts as spec;

use crate::words::{is_over, number_in, numbers_of, signed_in};
use hr_line::{Number, Signed, Words, only};
use hr_rel::Seq;
use std::alloc::{AllocError, Global};

/// An act, with its numbers as they are written.
#[derive(Drop)]
pub enum ActForm {
    /// `wrong N`, where N may have a sign.
    Wrong(Signed),
    /// `drop N`.
    Drop(Number),
    /// `early`.
    Early,
    /// `block T ..`, of any number of transactions.
    Block(Seq<Number>),
    /// `deadlock T ..`.
    Deadlock(Seq<Number>),
    /// `fail`.
    Fail,
    /// `position N`.
    Position(Number),
    /// `before`, of a line that loses.
    LoseBefore,
    /// `after`, of a line that loses.
    LoseAfter,
}

/// The words of an act.
#[derive(Clone, Copy, Debug, PartialEq, Eq)]
enum ActWord {
    Wrong,
    Drop,
    Early,
    Block,
    Deadlock,
    Fail,
    Position,
}

fn act_word(word: &[u8]) -> Option<ActWord>
    ensures { result ≡ spec.act_word word.now }
{
    if word == b"wrong".as_slice() {
        return Some(ActWord::Wrong);
    }
    if word == b"drop".as_slice() {
        return Some(ActWord::Drop);
    }
    if word == b"early".as_slice() {
        return Some(ActWord::Early);
    }
    if word == b"block".as_slice() {
        return Some(ActWord::Block);
    }
    if word == b"deadlock".as_slice() {
        return Some(ActWord::Deadlock);
    }
    if word == b"fail".as_slice() {
        return Some(ActWord::Fail);
    }
    if word == b"position".as_slice() {
        return Some(ActWord::Position);
    }
    None
}

/// The act of a line that lies: its word, and what stands behind it.
#[tactic(auto, unfolding(crate::specs::Acts::lie_of))]
pub fn lie_of(alloc: Global, words: Words<'_>) -> Result<Option<ActForm>, AllocError>
    ensures { IfOk result (λ act. act ≡ spec.lie_of words.entry) }
{
    let mut rest = words;
    let Some(word) = rest.next() else {
        return Ok(None);
    };
    let Some(word) = act_word(word) else {
        return Ok(None);
    };
    act_of(alloc, word, rest)
}

fn act_of(alloc: Global, word: ActWord, words: Words<'_>) -> Result<Option<ActForm>, AllocError>
    ensures { IfOk result (λ act. act ≡ spec.act_of word words.entry) }
{
    match word {
        ActWord::Wrong => Ok(wrong(signed_in(only(words)))),
        ActWord::Drop => Ok(dropped(number_in(only(words)))),
        ActWord::Early => Ok(alone(words, ActForm::Early)),
        ActWord::Block => Ok(block(numbers_of(alloc, words)?)),
        ActWord::Deadlock => Ok(deadlock(numbers_of(alloc, words)?)),
        ActWord::Fail => Ok(alone(words, ActForm::Fail)),
        ActWord::Position => Ok(position(number_in(only(words)))),
    }
}

/// An act without numbers, where there is no word more.
fn alone(words: Words<'_>, act: ActForm) -> Option<ActForm>
    ensures { result ≡ spec.alone words.entry act }
{
    if is_over(words) { Some(act) } else { None }
}

fn wrong(number: Option<Signed>) -> Option<ActForm>
    ensures { result ≡ spec.wrong number }
{
    Some(ActForm::Wrong(number?))
}

fn dropped(number: Option<Number>) -> Option<ActForm>
    ensures { result ≡ spec.dropped number }
{
    Some(ActForm::Drop(number?))
}

fn block(numbers: Option<Seq<Number>>) -> Option<ActForm>
    ensures { result ≡ spec.block numbers }
{
    Some(ActForm::Block(numbers?))
}

fn deadlock(numbers: Option<Seq<Number>>) -> Option<ActForm>
    ensures { result ≡ spec.deadlock numbers }
{
    Some(ActForm::Deadlock(numbers?))
}

fn position(number: Option<Number>) -> Option<ActForm>
    ensures { result ≡ spec.position number }
{
    Some(ActForm::Position(number?))
}

/// The act of a line that loses: its only word.
#[tactic(auto, unfolding(crate::specs::Acts::loss_of))]
pub fn loss_of(words: Words<'_>) -> Option<ActForm>
    ensures { result ≡ spec.loss_of words.entry }
{
    loss(only(words)?)
}

fn loss(word: &[u8]) -> Option<ActForm>
    ensures { result ≡ spec.loss word.now }
{
    if word == b"before".as_slice() {
        return Some(ActForm::LoseBefore);
    }
    if word == b"after".as_slice() {
        return Some(ActForm::LoseAfter);
    }
    None
}
