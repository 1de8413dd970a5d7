//! The words of a report's line, one blank apart.
ghost use Rattle.std.specs.Prelude.{◌≡◌, ◌≤◌, ◌∷◌, ◌==◌, not, length};
ghost use Rattle.std.specs.List.{prefix_len, list_all};
ghost use Rattle.std.specs.Option.{option_copied};
ghost use Rattle.hr_line.specs.Words.{first, others, pieces, pieces_left};
ghost use Rattle.hr_lines.specs.Lines.{behind};
ghost use Rattle.hr_report_reader.specs.Words as spec;
ghost use Rattle.hr_report_reader.specs.Blank.{is_space};

use hr_answer_reader::{long, short};
use std::marker::Model;

/// The words that are still to be read: what stands between single blanks. Contracts see them as the list of these.
#[derive(Drop)]
pub struct LineWords<'a> {
    left: Option<&'a [u8]>,
}

impl<'a> Model for LineWords<'a> {
    ghost use Rattle.std.specs.Prelude.{List, ℕ};
    ghost use Rattle.std.specs.Option.{option_copied};
    ghost use Rattle.hr_line.specs.Words.{pieces_left};
    ghost use Rattle.hr_report_reader.specs.Blank.{is_space};

    ghost Value = { List (List ℕ) };

    ghost view = { λ w. pieces_left is_space (option_copied w.left) };
}

impl<'a> LineWords<'a> {
    pub fn of(line: &'a [u8]) -> Self
        ensures { result ≡ pieces is_space line.now }
    {
        LineWords { left: Some(line) }
    }

    /// The next word.
    pub fn next(&mut self) -> Option<&'a [u8]>
        ensures word { option_copied result ≡ first self.old }
        ensures rest { self.new ≡ others self.old }
    {
        let text = self.left?;
        let (word, left) = split_word(text);
        self.left = left;
        Some(word)
    }

    /// Whether the next word is this.
    pub fn says(&mut self, text: &[u8]) -> bool
        ensures says { result ≡ spec.says (first self.old) text.now }
        ensures rest { self.new ≡ others self.old }
    {
        match self.next() {
            Some(word) => word == text,
            None => false,
        }
    }

    /// The number of 64 bits that the next word is.
    pub fn long(&mut self) -> Option<u64>
        ensures number { result ≡ spec.long_in (first self.old) }
        ensures rest { self.new ≡ others self.old }
    {
        long(self.next()?)
    }

    /// The number of 32 bits that the next word is.
    pub fn short(&mut self) -> Option<u32>
        ensures number { result ≡ spec.short_in (first self.old) }
        ensures rest { self.new ≡ others self.old }
    {
        short(self.next()?)
    }

    /// The number of 64 bits behind this label.
    pub fn labelled(&mut self, label: &[u8]) -> Option<u64>
        ensures number { result ≡ spec.labelled label.now self.old }
        ensures rest { self.new ≡ spec.past_two self.old }
    {
        let is = self.says(label);
        let number = self.long();
        if is { number } else { None }
    }

    /// The number of 32 bits behind this label.
    pub fn labelled_short(&mut self, label: &[u8]) -> Option<u32>
        ensures number { result ≡ spec.labelled_short label.now self.old }
        ensures rest { self.new ≡ spec.past_two self.old }
    {
        let is = self.says(label);
        let number = self.short();
        if is { number } else { None }
    }

    /// Whether there is no word more.
    pub fn is_over(mut self) -> bool
        ensures { result ≡ spec.is_over self.entry }
    {
        self.next().is_none()
    }
}

/// The word before the first blank, and what comes behind this, where there is one.
fn split_word(text: &[u8]) -> (&[u8], Option<&[u8]>)
    ensures { pieces is_space text.now ≡ result.0.now ∷ pieces_left is_space (option_copied result.1) }
{
    let len = word_len(text);
    (&text[..len], behind(text, len))
}

/// What comes behind the byte at a place, where there is a byte.
pub fn behind(text: &[u8], at: usize) -> Option<&[u8]>
    ensures { option_copied result ≡ behind at text.now }
{
    if at < text.len() {
        Some(&text[at + 1..])
    } else {
        None
    }
}

/// How many bytes stand before the first blank.
pub fn word_len(text: &[u8]) -> usize
    ensures value { result ≡ prefix_len (λ b. not (is_space b)) text.now }
    ensures within { result ≤ length text.now }
{
    text.iter().take_while(|b| **b != b' ').count()
}

/// Whether each word is a number of 64 bits.
pub fn are_numbers(words: LineWords<'_>) -> bool
    ensures { result ≡ list_all spec.is_long words.entry }
{
    let mut rest = words;
    'words: while let Some(word) = rest.next() {
        if !is_long(word) {
            return false;
        }
    }
    true
}

fn is_long(word: &[u8]) -> bool
    ensures { result ≡ spec.is_long word.now }
{
    long(word).is_some()
}
