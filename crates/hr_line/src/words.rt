//! The words of a text, one at a time.

ghost use Rattle.std.specs.Prelude.{◌≡◌, ◌≤◌, ◌<◌, ◌∷◌, not, length, [], IfSome, IfNone};
ghost use Rattle.std.specs.List.{prefix_len};
ghost use Rattle.std.specs.Option.{option_copied};
ghost use Rattle.hr_lex.specs.Bytes as lex;
ghost use Rattle.hr_line.specs.Words as spec;

use crate::bytes::{is_blank, past_blanks};
use std::marker::Model;

/// The words that are still to be read. Contracts see them as the list of these.
#[derive(Drop)]
pub struct Words<'a> {
    rest: &'a [u8],
}

impl<'a> Model for Words<'a> {
    ghost use Rattle.std.specs.Prelude.{List, ℕ};
    ghost use Rattle.hr_line.specs.Words.{words_of};

    ghost Value = { List (List ℕ) };

    ghost view = { λ w. words_of w.rest.now };
}

impl<'a> Words<'a> {
    pub fn of(text: &'a [u8]) -> Self
        ensures { result ≡ spec.words_of text.now }
    {
        Words { rest: text }
    }

    /// The next word.
    pub fn next(&mut self) -> Option<&'a [u8]>
        ensures word { option_copied result ≡ spec.first self.old }
        ensures rest { self.new ≡ spec.others self.old }
    {
        let Some((word, rest)) = split_word(self.rest) else {
            self.rest = &[];
            return None;
        };
        self.rest = rest;
        Some(word)
    }
}

/// The first word, where there is no other.
#[tactic(auto, unfolding(crate::specs::Words::only))]
pub fn only<'a>(mut words: Words<'a>) -> Option<&'a [u8]>
    ensures { option_copied result ≡ spec.only words.entry }
{
    let word = words.next()?;
    if words.next().is_none() {
        Some(word)
    } else {
        None
    }
}

/// The first word of a text, and what comes after it.
#[tactic(auto, using(crate::proofs::WordLemmas::no_words))]
fn split_word(text: &[u8]) -> Option<(&[u8], &[u8])>
    ensures some { IfSome result (λ split. spec.words_of text.now ≡ split.0.now ∷ spec.words_of split.1.now) }
    ensures none { IfNone result (spec.words_of text.now ≡ []) }
{
    let filled = past_blanks(text);
    if filled.is_empty() {
        return None;
    }
    Some(filled.split_at(word_len(filled)))
}

fn word_len(text: &[u8]) -> usize
    ensures value { result ≡ prefix_len (λ b. not (lex.is_blank b)) text.now }
    ensures within { result ≤ length text.now }
{
    text.iter().take_while(|b| !is_blank(**b)).count()
}
