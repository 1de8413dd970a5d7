//! Signs, of one byte or two.

ghost use Rattle.std.specs.Prelude.{◌≡◌};
ghost use Rattle.hr_lex.specs.Signs as spec;

use crate::token::TokenKind;

/// The sign of two bytes.
pub fn long_sign(first: u8, second: u8) -> Option<TokenKind>
    ensures { result ≡ spec.long_sign first second }
{
    match (first, second) {
        (b'<', b'>') => Some(TokenKind::NotEqual),
        (b'!', b'=') => Some(TokenKind::BangEqual),
        (b'<', b'=') => Some(TokenKind::LessEqual),
        (b'>', b'=') => Some(TokenKind::GreaterEqual),
        _ => None,
    }
}

/// The sign of one byte.
pub fn short_sign(b: u8) -> Option<TokenKind>
    ensures { result ≡ spec.short_sign b }
{
    match b {
        b'(' => Some(TokenKind::LeftParen),
        b')' => Some(TokenKind::RightParen),
        b',' => Some(TokenKind::Comma),
        b'.' => Some(TokenKind::Dot),
        b';' => Some(TokenKind::Semicolon),
        b'*' => Some(TokenKind::Star),
        b'+' => Some(TokenKind::Plus),
        b'-' => Some(TokenKind::Minus),
        b'=' => Some(TokenKind::Equal),
        b'<' => Some(TokenKind::Less),
        b'>' => Some(TokenKind::Greater),
        _ => None,
    }
}
