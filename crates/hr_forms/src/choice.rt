//! The lines of a schedule.

ghost use Rattle.std.specs.Prelude.{◌≡◌, IfOk, false};
ghost use Rattle.hr_line.specs.Words.{words_of};
ghost use Rattle.hr_forms.specs.Choices as spec;

use hr_line::{Number, Words, number_of};
use hr_rel::Seq;
use std::alloc::{AllocError, Global};

/// A choice of a schedule, with its number as it is written.
#[derive(Clone, Copy, Debug, PartialEq, Eq)]
pub enum ChoiceForm {
    /// `sN`: the session with this number, from 1, looks and makes a call.
    Session(Number),
    /// `rN`: the replica with this number, from 0, takes a job and gives its reply.
    Both(Number),
    /// `tN`: it takes a job.
    TakeJob(Number),
    /// `gN`: it gives a reply.
    GiveReply(Number),
    /// `rounds N`: so many times every session and then every replica.
    Rounds(Number),
}

/// A line of a schedule.
#[derive(Drop)]
pub enum ScheduleForm {
    /// `end`.
    End,
    /// Choices, in their order.
    Choices(Seq<ChoiceForm>),
}

/// What a line of a schedule is; None where it has no form.
pub fn schedule_form_of(alloc: Global, content: &[u8]) -> Result<Option<ScheduleForm>, AllocError>
    ensures { IfOk result (λ form. form ≡ spec.schedule_form_of content.now) }
{
    if content == b"end".as_slice() {
        return Ok(Some(ScheduleForm::End));
    }
    Ok(choices(choices_of(alloc, Words::of(content))?))
}

fn choices(all: Option<Seq<ChoiceForm>>) -> Option<ScheduleForm>
    ensures { result ≡ spec.choices all }
{
    Some(ScheduleForm::Choices(all?))
}

/// The choices that words are. Behind `rounds` comes its number.
fn choices_of(alloc: Global, words: Words<'_>) -> Result<Option<Seq<ChoiceForm>>, AllocError>
    ensures { IfOk result (λ choices. choices ≡ spec.choices_of false words.entry) }
{
    let mut rest = words;
    let mut choices = Seq::new(alloc);
    let mut in_rounds = false;
    'words: while let Some(word) = rest.next() {
        let Some(next) = add_word(&mut choices, in_rounds, word)? else {
            return Ok(None);
        };
        in_rounds = next;
    }
    if in_rounds {
        return Ok(None);
    }
    Ok(Some(choices))
}

/// Reads one word more, behind `rounds` or not; whether the next one stands behind `rounds`, or None where the word is no
/// choice.
fn add_word(
    choices: &mut Seq<ChoiceForm>,
    in_rounds: bool,
    word: &[u8],
) -> Result<Option<bool>, AllocError>
    ensures { IfOk result (spec.AddsWord choices.old choices.new in_rounds word.now) }
{
    if begins_rounds(in_rounds, word) {
        return Ok(Some(true));
    }
    let Some(choice) = choice(in_rounds, word) else {
        return Ok(None);
    };
    choices.push(choice)?;
    Ok(Some(false))
}

/// Whether a word is `rounds`, whose number comes behind it.
fn begins_rounds(in_rounds: bool, word: &[u8]) -> bool
    ensures { result ≡ spec.begins_rounds in_rounds word.now }
{
    !in_rounds && says_rounds(word)
}

fn says_rounds(word: &[u8]) -> bool
    ensures { result ≡ spec.says_rounds word.now }
{
    word == b"rounds".as_slice()
}

/// The choice that a word is, behind `rounds` or not.
fn choice(in_rounds: bool, word: &[u8]) -> Option<ChoiceForm>
    ensures { result ≡ spec.choice in_rounds word.now }
{
    if in_rounds {
        Some(ChoiceForm::Rounds(number_of(word)?))
    } else {
        lettered(word)
    }
}

/// A letter, and a number behind it.
fn lettered(word: &[u8]) -> Option<ChoiceForm>
    ensures { result ≡ spec.lettered word.now }
{
    match word {
        [] => None,
        [letter, digits @ ..] => chosen(*letter, number_of(digits)?),
    }
}

fn chosen(letter: u8, number: Number) -> Option<ChoiceForm>
    ensures { result ≡ spec.chosen letter number }
{
    match letter {
        b's' => Some(ChoiceForm::Session(number)),
        b'r' => Some(ChoiceForm::Both(number)),
        b't' => Some(ChoiceForm::TakeJob(number)),
        b'g' => Some(ChoiceForm::GiveReply(number)),
        _ => None,
    }
}
