//! The lines of a text, one at a time, as they are: no byte of them is dropped.
ghost use Rattle.std.specs.Prelude.{◌≡◌, ◌≤◌, ◌∷◌, ◌==◌, not, length};
ghost use Rattle.std.specs.List.{prefix_len};
ghost use Rattle.std.specs.Option.{option_copied};
ghost use Rattle.hr_line.specs.Words.{first, others, pieces, pieces_left};
ghost use Rattle.hr_lines.specs.Lines.{is_feed, behind};
ghost use Rattle.hr_answer_reader.specs.Lines as spec;

use std::marker::Model;

/// The lines that are still to be read. Contracts see them as the list of these.
#[derive(Drop)]
pub struct TextLines<'a> {
    left: Option<&'a [u8]>,
}

impl<'a> Model for TextLines<'a> {
    ghost use Rattle.std.specs.Prelude.{List, ℕ};
    ghost use Rattle.std.specs.Option.{option_copied};
    ghost use Rattle.hr_line.specs.Words.{pieces_left};
    ghost use Rattle.hr_lines.specs.Lines.{is_feed};

    ghost Value = { List (List ℕ) };

    ghost view = { λ l. pieces_left is_feed (option_copied l.left) };
}

impl<'a> TextLines<'a> {
    /// The lines of a text, whose last one may end with a line feed; none of a text without a byte.
    pub fn of(text: &'a [u8]) -> Self
        ensures { result ≡ spec.lines_of text.now }
    {
        if text.is_empty() {
            return TextLines { left: None };
        }
        TextLines::between_feeds(without_feed(text))
    }

    /// What stands between the line feeds of a text, one more than there are of these.
    pub fn between_feeds(text: &'a [u8]) -> Self
        ensures { result ≡ pieces is_feed text.now }
    {
        TextLines { left: Some(text) }
    }

    /// The next line.
    pub fn next(&mut self) -> Option<&'a [u8]>
        ensures line { option_copied result ≡ first self.old }
        ensures rest { self.new ≡ others self.old }
    {
        let text = self.left?;
        let (line, left) = split_line(text);
        self.left = left;
        Some(line)
    }

    /// The same lines again, to read ahead.
    pub fn ahead(&self) -> TextLines<'a>
        ensures { result ≡ self.now }
    {
        TextLines { left: self.left }
    }
}

fn without_feed(text: &[u8]) -> &[u8]
    ensures { result.now ≡ spec.without_feed text.now }
{
    text.strip_suffix(b"\n").unwrap_or(text)
}

/// What stands before the first line feed, and what comes behind this, where there is one.
fn split_line(text: &[u8]) -> (&[u8], Option<&[u8]>)
    ensures { pieces is_feed text.now ≡ result.0.now ∷ pieces_left is_feed (option_copied result.1) }
{
    let len = line_len(text);
    (&text[..len], behind(text, len))
}

fn behind(text: &[u8], at: usize) -> Option<&[u8]>
    ensures { option_copied result ≡ behind at text.now }
{
    if at < text.len() {
        Some(&text[at + 1..])
    } else {
        None
    }
}

fn line_len(text: &[u8]) -> usize
    ensures value { result ≡ prefix_len (λ b. not (is_feed b)) text.now }
    ensures within { result ≤ length text.now }
{
    text.iter().take_while(|b| **b != b'\n').count()
}
