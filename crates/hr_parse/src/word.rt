//! The words of a statement: its tokens with what they say.

ghost use Rattle.std.specs.Prelude.{◌≡◌, true};
ghost use Rattle.hr_parse.specs.Words as spec;

use hr_lex::Keyword;
use hr_rel::{Name, Op, Seq};

/// A sign that is no comparison.
#[derive(Clone, Copy, Debug, PartialEq, Eq)]
pub enum Sign {
    LeftParen,
    RightParen,
    Comma,
    Dot,
    Semicolon,
    Star,
    Plus,
    Minus,
}

/// A word that is always written alike, but for the case of its letters.
#[derive(Clone, Copy, Debug)]
pub enum Mark {
    Keyword(Keyword),
    Sign(Sign),
}

/// What a token says.
pub enum Word {
    Fixed(Mark),
    /// In small letters.
    Name(Name),
    Number(u64),
    /// With doubled quotes once.
    Text(Seq<u8>),
    Compare(Op),
}

impl Drop for Word {
    fn drop(self) {
        match self {
            Word::Fixed(_part) => {}
            Word::Name(_part) => {}
            Word::Number(_part) => {}
            Word::Text(_part) => {}
            Word::Compare(_part) => {}
        }
    }
}

/// A word, and the place in the text at which it begins.
pub struct Lexeme {
    pub word: Word,
    pub at: u32,
}

impl Drop for Lexeme {
    fn drop(self) {
        let Lexeme {
            word: _word,
            at: _at,
        } = self;
    }
}

/// Whether two marks are the same.
#[tactic(auto, unfolding(crate::specs::Words::same_mark))]
fn same_mark(a: Mark, b: Mark) -> bool
    ensures value { result ≡ spec.same_mark a b }
{
    match (a, b) {
        (Mark::Keyword(a), Mark::Keyword(b)) => a == b,
        (Mark::Sign(a), Mark::Sign(b)) => a == b,
        (Mark::Keyword(_), Mark::Sign(_)) | (Mark::Sign(_), Mark::Keyword(_)) => false,
    }
}

/// Whether the word is this mark.
pub fn is_mark(mark: Mark, word: &Word) -> bool
    ensures { result ≡ spec.is_mark mark word.now }
{
    match word {
        Word::Fixed(other) => same_mark(mark, *other),
        _ => false,
    }
}
