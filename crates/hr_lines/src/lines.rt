//! The lines of a text, one at a time.

ghost use Rattle.std.specs.Prelude.{◌≡◌, ◌≤◌, ◌∷◌, ◌==◌, not, length};
ghost use Rattle.std.specs.List.{prefix_len};
ghost use Rattle.std.specs.Option.{is_some, option_copied};
ghost use Rattle.hr_line.specs.Words.{first, others, pieces, pieces_left};
ghost use Rattle.hr_lines.specs.Lines as spec;

use hr_line::without_return;
use std::marker::Model;

/// The lines that are still to be read. Contracts see them as the list of these.
#[derive(Drop)]
pub struct Lines<'a> {
    left: Option<&'a [u8]>,
}

impl<'a> Model for Lines<'a> {
    ghost use Rattle.std.specs.Prelude.{List, ℕ};
    ghost use Rattle.std.specs.Option.{option_copied};
    ghost use Rattle.hr_lines.specs.Lines.{lines_left};

    ghost Value = { List (List ℕ) };

    ghost view = { λ l. lines_left (option_copied l.left) };
}

impl<'a> Lines<'a> {
    pub fn of(text: &'a [u8]) -> Self
        ensures { result ≡ spec.lines_of text.now }
    {
        Lines { left: Some(text) }
    }

    /// The next line, without what ends it.
    #[tactic(auto, using(crate::proofs::LineLemmas::first_line, crate::proofs::LineLemmas::other_lines))]
    pub fn next(&mut self) -> Option<&'a [u8]>
        ensures line { option_copied result ≡ first self.old }
        ensures rest { self.new ≡ others self.old }
    {
        let text = self.left?;
        let (piece, left) = split_line(text);
        self.left = left;
        line_of(piece, is_there(left))
    }
}

/// Whether anything is left of a text: then a line feed ended the piece before it.
fn is_there(left: Option<&[u8]>) -> bool
    ensures { result ≡ is_some (option_copied left.entry) }
{
    match left {
        Some(_) => true,
        None => false,
    }
}

/// A piece as a line: one that a line feed ends without its carriage return, and the last one where it has a byte.
fn line_of(piece: &[u8], is_ended: bool) -> Option<&[u8]>
    ensures { option_copied result ≡ spec.line_of piece.now is_ended }
{
    if is_ended {
        Some(without_return(piece))
    } else if piece.is_empty() {
        None
    } else {
        Some(piece)
    }
}

/// The piece before the first line feed, and what comes behind this, where there is one.
fn split_line(text: &[u8]) -> (&[u8], Option<&[u8]>)
    ensures { pieces spec.is_feed text.now ≡ result.0.now ∷ pieces_left spec.is_feed (option_copied result.1) }
{
    let len = line_len(text);
    (&text[..len], behind(text, len))
}

fn behind(text: &[u8], at: usize) -> Option<&[u8]>
    ensures { option_copied result ≡ spec.behind at text.now }
{
    if at < text.len() {
        Some(&text[at + 1..])
    } else {
        None
    }
}

fn line_len(text: &[u8]) -> usize
    ensures value { result ≡ prefix_len (λ b. not (spec.is_feed b)) text.now }
    ensures within { result ≤ length text.now }
{
    text.iter().take_while(|b| **b != b'\n').count()
}
