//! Tokens as words.

ghost use Rattle.std.specs.Prelude.{◌≡◌, ◌≤◌, ◌<◌, ◌+◌, ◌^◌, ◌⊎◌, false, map, length, IfOk};
ghost use Rattle.std.specs.List.{AllByRecursion};
ghost use Rattle.std.specs.Str.{str_to_ascii_lowercase};
ghost use Rattle.hr_lex.specs.Tokens.{IsTokenOf, IsNameText};
ghost use Rattle.hr_parse.specs.Lexemes as spec;
ghost use Rattle.hr_parse.specs.Parse.{moved};

use crate::word::{Lexeme, Mark, Sign, Word};
use hr_lex::{Token, TokenKind};
use hr_rel::{Name, Op, Seq};
use std::alloc::{AllocError, Global};

/// The bytes in small letters.
fn small(alloc: Global, bytes: &[u8]) -> Result<Vec<u8>, AllocError>
    ensures { IfOk result (λ v. v.items ≡ str_to_ascii_lowercase bytes.now) }
{
    bytes.iter().map(|b| b.to_ascii_lowercase()).collect(alloc)
}

/// The name that the bytes of a name's token are.
fn name(alloc: Global, bytes: &[u8]) -> Result<Name, AllocError>
    requires { IsNameText bytes.now }
    ensures { IfOk result (λ n. n ≡ str_to_ascii_lowercase bytes.now) }
{
    let lowered = small(alloc, bytes)?;
    match Name::new(&lowered) {
        Some(name) => Ok(name),
        None => unreachable!(),
    }
}

/// Bytes in which each quote is doubled, with each of them once.
fn undoubled(alloc: Global, mut bytes: &[u8]) -> Result<Vec<u8>, AllocError>
    ensures { IfOk result (λ v. v.items ≡ spec.undoubled false bytes.entry.now) }
{
    let mut out = Vec::new(alloc);
    let mut after_quote = false;
    while let [b, rest @ ..] = bytes {
        if after_quote {
            after_quote = false;
        } else {
            out.push(*b)?;
            after_quote = *b == b'\'';
        }
        bytes = rest;
    }
    Ok(out)
}

/// The bytes between the quotes.
fn between_quotes(bytes: &[u8]) -> &[u8]
    ensures { result.now ≡ spec.between_quotes bytes.now }
{
    match bytes {
        [_, inner @ .., _] => inner,
        _ => &[],
    }
}

/// What a token of this kind says, on these bytes.
fn word(alloc: Global, kind: TokenKind, bytes: &[u8]) -> Result<Word, AllocError>
    requires { kind ≡ TokenKind.Name → IsNameText bytes.now }
    ensures { IfOk result (λ w. w ≡ spec.word_of bytes.now kind) }
{
    Ok(match kind {
        TokenKind::Keyword(keyword) => Word::Fixed(Mark::Keyword(keyword)),
        TokenKind::Name => Word::Name(name(alloc, bytes)?),
        TokenKind::Number(number) => Word::Number(number),
        TokenKind::Text => Word::Text(Seq::from_vec(undoubled(alloc, between_quotes(bytes))?)),
        TokenKind::LeftParen => Word::Fixed(Mark::Sign(Sign::LeftParen)),
        TokenKind::RightParen => Word::Fixed(Mark::Sign(Sign::RightParen)),
        TokenKind::Comma => Word::Fixed(Mark::Sign(Sign::Comma)),
        TokenKind::Dot => Word::Fixed(Mark::Sign(Sign::Dot)),
        TokenKind::Semicolon => Word::Fixed(Mark::Sign(Sign::Semicolon)),
        TokenKind::Star => Word::Fixed(Mark::Sign(Sign::Star)),
        TokenKind::Plus => Word::Fixed(Mark::Sign(Sign::Plus)),
        TokenKind::Minus => Word::Fixed(Mark::Sign(Sign::Minus)),
        TokenKind::Equal => Word::Compare(Op::Eq),
        TokenKind::NotEqual => Word::Compare(Op::Ne),
        TokenKind::BangEqual => Word::Compare(Op::Ne),
        TokenKind::Less => Word::Compare(Op::Lt),
        TokenKind::LessEqual => Word::Compare(Op::Le),
        TokenKind::Greater => Word::Compare(Op::Gt),
        TokenKind::GreaterEqual => Word::Compare(Op::Ge),
    })
}

/// What the tokens of a text say, which begins at the place `from` of a whole one.
pub fn lexemes(
    alloc: Global,
    text: &[u8],
    mut tokens: &[Token],
    from: u32,
) -> Result<Vec<Lexeme>, AllocError>
    requires fits { (from ≡ 0) ⊎ (from + length text.now < 2 ^ 32) }
    requires each { AllByRecursion (IsTokenOf text.now) tokens.now }
    ensures { IfOk result (λ v. v.items ≡ map (moved from) (spec.lexemes text.now tokens.entry.now)) }
{
    let mut all = Vec::new(alloc);
    while let [token, rest @ ..] = tokens {
        let bytes = &text[token.from as usize..token.to as usize];
        let word = word(alloc, token.kind, bytes)?;
        all.push(Lexeme {
            word,
            at: from + token.from,
        })?;
        tokens = rest;
    }
    Ok(all)
}
