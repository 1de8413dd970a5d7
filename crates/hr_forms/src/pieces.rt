//! The pieces of a text between its commas, one at a time.

ghost use Rattle.std.specs.Prelude.{◌≡◌, ◌≤◌, ◌∷◌, ◌==◌, not, length};
ghost use Rattle.std.specs.List.{prefix_len};
ghost use Rattle.std.specs.Option.{option_copied};
ghost use Rattle.hr_line.specs.Words.{first, others, pieces, pieces_left};
ghost use Rattle.hr_forms.specs.Columns as spec;
ghost use Rattle.hr_forms.specs.Columns.{is_comma};

use std::marker::Model;

/// The pieces that are still to be read. Contracts see them as the list of these.
#[derive(Drop)]
pub struct Pieces<'a> {
    left: Option<&'a [u8]>,
}

impl<'a> Model for Pieces<'a> {
    ghost use Rattle.std.specs.Prelude.{List, ℕ};
    ghost use Rattle.std.specs.Option.{option_copied};
    ghost use Rattle.hr_line.specs.Words.{pieces_left};
    ghost use Rattle.hr_forms.specs.Columns.{is_comma};

    ghost Value = { List (List ℕ) };

    ghost view = { λ p. pieces_left is_comma (option_copied p.left) };
}

impl<'a> Pieces<'a> {
    pub fn of(text: &'a [u8]) -> Self
        ensures { result ≡ pieces is_comma text.now }
    {
        Pieces { left: Some(text) }
    }

    /// The next piece.
    pub fn next(&mut self) -> Option<&'a [u8]>
        ensures piece { option_copied result ≡ first self.old }
        ensures rest { self.new ≡ others self.old }
    {
        let text = self.left?;
        let (piece, left) = split_piece(text);
        self.left = left;
        Some(piece)
    }
}

/// The first piece of a text, and what comes behind its comma.
fn split_piece(text: &[u8]) -> (&[u8], Option<&[u8]>)
    ensures { pieces is_comma text.now ≡ result.0.now ∷ pieces_left is_comma (option_copied result.1) }
{
    let len = piece_len(text);
    (&text[..len], behind(text, len))
}

/// What comes behind the byte at a place.
fn behind(text: &[u8], at: usize) -> Option<&[u8]>
    ensures { option_copied result ≡ spec.behind at text.now }
{
    if at < text.len() {
        Some(&text[at + 1..])
    } else {
        None
    }
}

fn piece_len(text: &[u8]) -> usize
    ensures value { result ≡ prefix_len (λ b. not (is_comma b)) text.now }
    ensures within { result ≤ length text.now }
{
    text.iter().take_while(|b| **b != b',').count()
}
