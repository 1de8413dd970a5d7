//! Names and numbers among the words of a line.

ghost use Rattle.std.specs.Prelude.{◌≡◌, IfOk, map};
ghost use Rattle.std.specs.Option.{option_copied};
ghost use Rattle.hr_line.specs.Numbers.{number_of};
ghost use Rattle.hr_forms.specs.Words as spec;

use hr_line::{LineName, Number, Signed, Words, name_of, number_of, only, signed_of};
use hr_rel::Seq;
use std::alloc::{AllocError, Global};

/// The name that a word is, where there is a word.
#[tactic(auto, unfolding(crate::specs::Words::named))]
pub fn named(alloc: Global, word: Option<&[u8]>) -> Result<Option<LineName>, AllocError>
    ensures { IfOk result (λ name. name ≡ spec.named (option_copied word.entry)) }
{
    match word {
        Some(word) => name_of(alloc, word),
        None => Ok(None),
    }
}

/// The number that a word is, where there is a word.
#[tactic(auto, unfolding(crate::specs::Words::number_in))]
pub fn number_in(word: Option<&[u8]>) -> Option<Number>
    ensures { result ≡ spec.number_in (option_copied word.entry) }
{
    number_of(word?)
}

/// The number with a sign that a word is, where there is a word.
#[tactic(auto, unfolding(crate::specs::Words::signed_in))]
pub fn signed_in(word: Option<&[u8]>) -> Option<Signed>
    ensures { result ≡ spec.signed_in (option_copied word.entry) }
{
    signed_of(word?)
}

/// The number that stands alone.
pub fn one_number(words: Words<'_>) -> Option<Number>
    ensures { result ≡ spec.one_number words.entry }
{
    number_in(only(words))
}

/// Whether there is no word more.
pub fn is_over(mut words: Words<'_>) -> bool
    ensures { result ≡ spec.is_over words.entry }
{
    words.next().is_none()
}

/// The numbers that words are, where each is one.
pub fn numbers_of(alloc: Global, words: Words<'_>) -> Result<Option<Seq<Number>>, AllocError>
    ensures { IfOk result (λ numbers. numbers ≡ spec.all_there (map number_of words.entry)) }
{
    let mut rest = words;
    let mut numbers = Seq::new(alloc);
    'words: while let Some(word) = rest.next() {
        let Some(number) = number_of(word) else {
            return Ok(None);
        };
        numbers.push(number)?;
    }
    Ok(Some(numbers))
}
