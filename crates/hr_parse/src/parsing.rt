//! Texts as statements and tuples.

ghost use Rattle.std.specs.Prelude.{◌≡◌, ◌≤◌, ◌⊎◌, ◌↔◌, ℕ, List, Ok, Err, length, IfOk, IfErr};
ghost use Rattle.std.specs.Option.{option_map};
ghost use Rattle.std.specs.Str.{IsCharBoundary};
ghost use Rattle.hr_parse.specs.Grammar.{IsStatement};
ghost use Rattle.hr_parse.specs.Parse as spec;
ghost use Rattle.hr_parse.specs.Parse.{IsTextOf, TextRefused, IsTupleFrom, TupleRefused, parsed, parsed_tuple};
ghost use Rattle.hr_parse.specs.declared.ast.Ast.{Ast};
ghost use Rattle.hr_parse.specs.declared.ast.TupleAst.{TupleAst};
ghost use Rattle.hr_parse.specs.declared.parsing.ParseError.{ParseError};
ghost use Rattle.hr_parse.specs.declared.word.Lexeme.{Lexeme};

use crate::ast::{Ast, TupleAst};
use crate::lexeme::lexemes;
use crate::parser::{Parser, Stop};
use crate::word::Lexeme;
use hr_base::limits::MAX_SQL_BYTES;
use hr_lex::{LexError, Reading, read};
use std::alloc::{AllocError, Global};

/// Why a text is no statement. Places are in bytes from 0; the end of the text is its length.
#[derive(Clone, Copy, Debug, PartialEq, Eq)]
pub enum ParseError {
    /// The tokens up to this error can go on to a statement.
    Lex(LexError),
    /// The place of the first token that no statement has behind the tokens before it, or of the text's end, where
    /// every statement that begins so goes on.
    Unexpected(u32),
    /// Memory ran out.
    Memory,
}

impl From<AllocError> for ParseError {
    ghost use Rattle.std.specs.Prelude.{◌≡◌};
    ghost use Rattle.hr_parse.specs.declared.parsing.ParseError.TheVariants.{Memory};

    ghost from_gives = { λ _ e. e ≡ Memory };

    fn from(_error: AllocError) -> ParseError {
        ParseError::Memory
    }
}

/// No words are two statements.
pub fn one_tree()
    ensures { (words : List Lexeme) (a b : Ast) → IsStatement words a → IsStatement words b → a ≡ b }
{}

/// `parsed` gives exactly the tree that the grammar gives a text, and otherwise says rightly why there is none.
pub fn parsed_by_the_grammar()
    ensures tree { (text : List ℕ) (a : Ast) → (parsed text ≡ Ok a) ↔ IsTextOf text a }
    ensures refused { (text : List ℕ) (e : ParseError) → parsed text ≡ Err e → TextRefused text e }
    ensures memory { (text : List ℕ) → parsed text ≡ Err ParseError.Memory → ⊥ }
{}

/// The same of `parsed_tuple`, for the tuple that begins at a place of a text.
pub fn parsed_tuple_by_the_grammar()
    ensures tree { (from : ℕ) (text : List ℕ) (a : TupleAst) → (parsed_tuple from text ≡ Ok a) ↔ IsTupleFrom from text a }
    ensures refused { (from : ℕ) (text : List ℕ) (e : ParseError) → parsed_tuple from text ≡ Err e → TupleRefused from text e }
    ensures memory { (from : ℕ) (text : List ℕ) → parsed_tuple from text ≡ Err ParseError.Memory → ⊥ }
{}

/// What is told of a text whose words are read so up to a rest, with the first error of its tokens and its length.
fn told<T: Drop>(
    read: Result<T, Stop>,
    rest: &[Lexeme],
    error: Option<LexError>,
    end: u32,
) -> Result<T, ParseError>
    ensures { result ≡ spec.told read rest.now error end }
{
    match read {
        Ok(tree) => match error {
            None => Ok(tree),
            Some(error) => {
                drop(tree);
                Err(ParseError::Lex(error))
            }
        },
        Err(Stop::Memory) => Err(ParseError::Memory),
        Err(Stop::Unexpected) => match (rest, error) {
            ([next, ..], _) => Err(ParseError::Unexpected(next.at)),
            ([], None) => Err(ParseError::Unexpected(end)),
            ([], Some(error)) => Err(ParseError::Lex(error)),
        },
    }
}

/// How many bytes the text has, where they are few enough to be read.
fn end_of(text: &str) -> u32
    ensures { length text.now ≤ MAX_SQL_BYTES → result ≡ length text.now }
{
    if text.len() > MAX_SQL_BYTES {
        return MAX_SQL_BYTES as u32;
    }
    text.len() as u32
}

/// The syntax tree of the statement that a text is.
pub fn parse(alloc: Global, text: &str) -> Result<Ast, ParseError>
    ensures exact { (result ≡ parsed text.now) ⊎ (result ≡ Err ParseError.Memory) }
    ensures ok { IfOk result (λ a. IsTextOf text.now a) }
    ensures only { (a : Ast) → IsTextOf text.now a → (result ≡ Ok a) ⊎ (result ≡ Err ParseError.Memory) }
    ensures err { IfErr result (TextRefused text.now) }
{
    let Reading { tokens, error } = read(alloc, text)?;
    let words = lexemes(alloc, text.as_bytes(), &tokens, 0)?;
    let mut parser = Parser {
        alloc,
        rest: &words,
    };
    // Each level of rules but three takes a word.
    let read = parser.statement(4 * words.len() + 6);
    told(read, parser.rest, error, end_of(text))
}

/// The same error, in a text that begins at the place `from` of a whole one. A place that is no `u32`, which no text
/// is long enough for, counts as want of memory.
fn moved(error: Option<LexError>, from: u32) -> Result<Option<LexError>, AllocError>
    ensures { IfOk result (λ e. e ≡ option_map (spec.moved_error from) error) }
{
    let at = |place: u32| from.checked_add(place).ok_or(AllocError);
    Ok(match error {
        Some(LexError::BadChar(place)) => Some(LexError::BadChar(at(place)?)),
        Some(LexError::OpenText(place)) => Some(LexError::OpenText(at(place)?)),
        Some(LexError::NumberTooLarge(place)) => Some(LexError::NumberTooLarge(at(place)?)),
        Some(LexError::NameTooLong(place)) => Some(LexError::NameTooLong(at(place)?)),
        Some(LexError::TooLong) => Some(LexError::TooLong),
        Some(LexError::Memory) => Some(LexError::Memory),
        None => None,
    })
}

/// The tuple that a text is from the place `from` on, as an INSERT has it. Its places, and that of an error, are
/// counted in the whole text; whatever stands behind the tuple is unexpected.
pub fn parse_tuple(alloc: Global, text: &str, from: usize) -> Result<TupleAst, ParseError>
    requires short { length text.now ≤ MAX_SQL_BYTES }
    requires within { IsCharBoundary text.now from }
    ensures exact { (result ≡ parsed_tuple from text.now) ⊎ (result ≡ Err ParseError.Memory) }
    ensures ok { IfOk result (λ a. IsTupleFrom from text.now a) }
    ensures only { (a : TupleAst) → IsTupleFrom from text.now a → (result ≡ Ok a) ⊎ (result ≡ Err ParseError.Memory) }
    ensures err { IfErr result (TupleRefused from text.now) }
{
    let tail = &text[from..];
    let Reading { tokens, error } = read(alloc, tail)?;
    let words = lexemes(alloc, tail.as_bytes(), &tokens, from as u32)?;
    let mut parser = Parser {
        alloc,
        rest: &words,
    };
    let read = parser.only_tuple(4 * words.len() + 6);
    told(read, parser.rest, moved(error, from as u32)?, end_of(text))
}
