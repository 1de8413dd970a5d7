//! The keywords.

ghost use Rattle.std.specs.Prelude.{◌≡◌, map};
ghost use Rattle.std.specs.Str.{str_eq_ignore_ascii_case};
ghost use Rattle.hr_lex.specs.Keywords as spec;

use crate::token::Keyword;

const KEYWORDS: [(&[u8], Keyword); 33] = [
    (b"SELECT", Keyword::Select),
    (b"FROM", Keyword::From),
    (b"INNER", Keyword::Inner),
    (b"JOIN", Keyword::Join),
    (b"ON", Keyword::On),
    (b"WHERE", Keyword::Where),
    (b"GROUP", Keyword::Group),
    (b"BY", Keyword::By),
    (b"INSERT", Keyword::Insert),
    (b"INTO", Keyword::Into),
    (b"VALUES", Keyword::Values),
    (b"UPDATE", Keyword::Update),
    (b"SET", Keyword::Set),
    (b"DELETE", Keyword::Delete),
    (b"AND", Keyword::And),
    (b"OR", Keyword::Or),
    (b"NOT", Keyword::Not),
    (b"IS", Keyword::Is),
    (b"NULL", Keyword::Null),
    (b"BETWEEN", Keyword::Between),
    (b"IN", Keyword::In),
    (b"AS", Keyword::As),
    (b"COUNT", Keyword::Count),
    (b"SUM", Keyword::Sum),
    (b"MIN", Keyword::Min),
    (b"MAX", Keyword::Max),
    (b"BEGIN", Keyword::Begin),
    (b"COMMIT", Keyword::Commit),
    (b"ROLLBACK", Keyword::Rollback),
    (b"ORDER", Keyword::Order),
    (b"LIMIT", Keyword::Limit),
    (b"ASC", Keyword::Asc),
    (b"DESC", Keyword::Desc),
];

fn is_word(word: &[u8], other: &[u8]) -> bool
    ensures { result ≡ str_eq_ignore_ascii_case word.now other.now }
{
    word.eq_ignore_ascii_case(other)
}

fn lookup(mut table: &[(&[u8], Keyword)], word: &[u8]) -> Option<Keyword>
    ensures { result ≡ spec.lookup (map (λ k. (k.0.now, k.1)) table.entry.now) word.now }
{
    while let [entry, rest @ ..] = table {
        if is_word(entry.0, word) {
            return Some(entry.1);
        }
        table = rest;
    }
    None
}

/// The keyword that a word is, in either case.
pub fn keyword(word: &[u8]) -> Option<Keyword>
    ensures { result ≡ spec.keyword word.now }
{
    lookup(&KEYWORDS, word)
}
