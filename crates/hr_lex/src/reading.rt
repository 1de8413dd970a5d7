//! Reads a text token by token.

ghost use Rattle.std.specs.Prelude.{◌≡◌, ◌≤◌, ◌<◌, ◌+◌, length, false, zero, IfOk, IfErr, Ok, Err, ◌⊎◌};
ghost use Rattle.hr_lex.specs.Tokens as spec;
ghost use Rattle.std.specs.List.{prefix_len, AllByRecursion};
ghost use Rattle.hr_lex.specs.Bytes.{is_name_byte, is_digit};
ghost use Rattle.hr_lex.specs.Quotes.{closing};

use crate::bytes::{digits_len, is_blank, is_digit, is_letter, name_len};
use crate::keyword::keyword;
use crate::number::number;
use crate::quote::{QuoteFault, closing};
use crate::sign::{long_sign, short_sign};
use crate::token::{LexError, Token, TokenKind};
use hr_base::limits::{MAX_NAME_BYTES, MAX_SQL_BYTES};
use std::alloc::{AllocError, Global};

/// The tokens of a text up to its first error, and that error.
#[derive(Debug, Drop)]
pub struct Reading {
    pub tokens: Vec<Token>,
    pub error: Option<LexError>,
}

/// The keyword or name at the front of `bytes`, which stand at `at`.
fn word_at(at: u32, bytes: &[u8]) -> Result<Token, LexError>
    requires some { 0 < prefix_len is_name_byte bytes.now }
    requires fits { at + length bytes.now ≤ MAX_SQL_BYTES }
    ensures value { result ≡ spec.word_at at bytes.now }
    ensures span { IfOk result (spec.Spans at (at + length bytes.now)) }
{
    let len = name_len(bytes);
    let to = at + len as u32;
    match keyword(&bytes[..len]) {
        Some(word) => Ok(Token {
            kind: TokenKind::Keyword(word),
            from: at,
            to,
        }),
        None if len <= MAX_NAME_BYTES => Ok(Token {
            kind: TokenKind::Name,
            from: at,
            to,
        }),
        None => Err(LexError::NameTooLong(at)),
    }
}

/// The number at the front of `bytes`, which stand at `at`.
fn number_at(at: u32, bytes: &[u8]) -> Result<Token, LexError>
    requires some { 0 < prefix_len is_digit bytes.now }
    requires fits { at + length bytes.now ≤ MAX_SQL_BYTES }
    ensures value { result ≡ spec.number_at at bytes.now }
    ensures span { IfOk result (spec.Spans at (at + length bytes.now)) }
{
    let len = digits_len(bytes);
    match number(&bytes[..len]) {
        Some(n) => Ok(Token {
            kind: TokenKind::Number(n),
            from: at,
            to: at + len as u32,
        }),
        None => Err(LexError::NumberTooLarge(at)),
    }
}

/// The quoted text whose opening quote stands at `at`, right before `bytes`.
fn text_at(at: u32, bytes: &[u8]) -> Result<Token, LexError>
    requires { at + length bytes.now < MAX_SQL_BYTES }
    ensures value { result ≡ spec.quoted at (closing false (at + 1) bytes.now) }
    ensures span { IfOk result (spec.Spans at (at + 1 + length bytes.now)) }
{
    match closing(bytes, at + 1) {
        Ok(end) => Ok(Token {
            kind: TokenKind::Text,
            from: at,
            to: end,
        }),
        Err(QuoteFault::Open) => Err(LexError::OpenText(at)),
        Err(QuoteFault::BadByte(place)) => Err(LexError::BadChar(place)),
    }
}

/// The sign at the front of `bytes`, which stand at `at`.
fn sign_at(at: u32, bytes: &[u8]) -> Result<Token, LexError>
    requires { at + length bytes.now ≤ MAX_SQL_BYTES }
    ensures value { result ≡ spec.sign_at at bytes.now }
    ensures span { IfOk result (spec.Spans at (at + length bytes.now)) }
{
    let long = match bytes {
        [first, second, ..] => long_sign(*first, *second),
        _ => None,
    };
    let short = match bytes {
        [first, ..] => short_sign(*first),
        [] => None,
    };
    match (long, short) {
        (Some(kind), _) => Ok(Token {
            kind,
            from: at,
            to: at + 2,
        }),
        (None, Some(kind)) => Ok(Token {
            kind,
            from: at,
            to: at + 1,
        }),
        (None, None) => Err(LexError::BadChar(at)),
    }
}

/// The token at the front of `bytes`, which stand at `at`.
#[tactic(auto, unfolding(crate::specs::Tokens::token_at))]
fn token_at(at: u32, bytes: &[u8]) -> Result<Token, LexError>
    requires some { 0 < length bytes.now }
    requires fits { at + length bytes.now ≤ MAX_SQL_BYTES }
    ensures value { result ≡ spec.token_at at bytes.now }
    ensures span { IfOk result (spec.Spans at (at + length bytes.now)) }
{
    let first = bytes[0];
    if is_letter(first) {
        word_at(at, bytes)
    } else if is_digit(first) {
        number_at(at, bytes)
    } else if first == b'\'' {
        text_at(at, &bytes[1..])
    } else {
        sign_at(at, bytes)
    }
}

/// The tokens of the text's bytes, of which there are few enough, up to the first error.
fn read_bytes(alloc: Global, bytes: &[u8]) -> Result<Reading, AllocError>
    requires { length bytes.now ≤ MAX_SQL_BYTES }
    ensures value { IfOk result (λ r. spec.reading_of r ≡ spec.reading zero 0 bytes.now) }
    ensures each { IfOk result (λ r. AllByRecursion (spec.IsTokenOf bytes.now) r.tokens.items) }
{
    let mut tokens = Vec::new(alloc);
    let mut at = 0;
    let mut rest = bytes;
    while let [first, behind @ ..] = rest {
        if is_blank(*first) {
            at += 1;
            rest = behind;
            continue;
        }
        match token_at(at, rest) {
            Ok(token) => {
                tokens.push(token)?;
                rest = &rest[(token.to - at) as usize..];
                at = token.to;
            }
            Err(error) => {
                return Ok(Reading {
                    tokens,
                    error: Some(error),
                });
            }
        }
    }
    Ok(Reading {
        tokens,
        error: None,
    })
}

/// The tokens of a text up to its first error. A text of more than 1,024 bytes has none, and the error TooLong.
pub fn read(alloc: Global, text: &str) -> Result<Reading, AllocError>
    ensures value { IfOk result (λ r. spec.reading_of r ≡ spec.read_of text.now) }
    ensures each { IfOk result (λ r. AllByRecursion (spec.IsTokenOf text.now) r.tokens.items) }
    ensures tiles { IfOk result (λ r. length text.now ≤ MAX_SQL_BYTES → spec.TilesUpTo text.now 0 r.tokens.items r.error) }
{
    let bytes = text.as_bytes();
    if bytes.len() > MAX_SQL_BYTES {
        return Ok(Reading {
            tokens: Vec::new(alloc),
            error: Some(LexError::TooLong),
        });
    }
    read_bytes(alloc, bytes)
}

/// The tokens of a text, which tile it, or its first error from the left.
#[tactic(auto, using(crate::proofs::Tiling::tokens_tile))]
pub fn tokens(alloc: Global, text: &str) -> Result<Vec<Token>, LexError>
    ensures ok { IfOk result (λ all. spec.tokens_of text.now ≡ Ok all.items) }
    ensures each { IfOk result (λ all. AllByRecursion (spec.IsTokenOf text.now) all.items) }
    ensures tiles { IfOk result (λ all. spec.Tiles text.now 0 (length text.now) all.items) }
    ensures err { IfErr result (λ e. (e ≡ LexError.Memory) ⊎ (spec.tokens_of text.now ≡ Err e)) }
{
    let Reading { tokens, error } = read(alloc, text)?;
    match error {
        None => Ok(tokens),
        Some(error) => Err(error),
    }
}
