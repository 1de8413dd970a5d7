//! What a token is.

ghost use Rattle.std.specs.Prelude.{◌≡◌};
ghost use Rattle.hr_lex.specs.declared.token.LexError.TheVariants.{Memory};

use std::alloc::AllocError;

/// A word that is never a name.
#[derive(Clone, Copy, Debug, PartialEq, Eq)]
pub enum Keyword {
    Select,
    From,
    Inner,
    Join,
    On,
    Where,
    Group,
    By,
    Insert,
    Into,
    Values,
    Update,
    Set,
    Delete,
    And,
    Or,
    Not,
    Is,
    Null,
    Between,
    In,
    As,
    Count,
    Sum,
    Min,
    Max,
    Begin,
    Commit,
    Rollback,
    Order,
    Limit,
    Asc,
    Desc,
}

/// What a token is. A name and a quoted text are read from the bytes of their span.
#[derive(Clone, Copy, Debug, PartialEq, Eq)]
pub enum TokenKind {
    Keyword(Keyword),
    Name,
    /// At most 9223372036854775808, the least number without its sign.
    Number(u64),
    /// With both quotes, and with each quote inside doubled.
    Text,
    LeftParen,
    RightParen,
    Comma,
    Dot,
    Semicolon,
    Star,
    Plus,
    Minus,
    Equal,
    /// `<>`.
    NotEqual,
    /// `!=`, which means `<>`.
    BangEqual,
    Less,
    LessEqual,
    Greater,
    GreaterEqual,
}

/// A token, and the bytes of the text that it stands on: from `from` up to, and without, `to`.
#[derive(Clone, Copy, Debug, PartialEq, Eq)]
pub struct Token {
    pub kind: TokenKind,
    pub from: u32,
    pub to: u32,
}

/// Why a text has no tokens, with the place of the byte that shows it.
#[derive(Clone, Copy, Debug, PartialEq, Eq)]
pub enum LexError {
    /// A byte that begins no token, or one outside 0x20 to 0x7E within quotes.
    BadChar(u32),
    /// The opening quote of a text that does not end.
    OpenText(u32),
    /// The first digit of a number past 9223372036854775808.
    NumberTooLarge(u32),
    /// The first letter of a name of more bytes than it may have.
    NameTooLong(u32),
    /// The text has more than 1,024 bytes.
    TooLong,
    /// Memory ran out.
    Memory,
}

impl From<AllocError> for LexError {
    ghost from_gives = { λ _ e. e ≡ Memory };

    fn from(_error: AllocError) -> LexError {
        LexError::Memory
    }
}
