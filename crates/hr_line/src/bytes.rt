//! The bytes of a line, and what of it is read.

ghost use Rattle.std.specs.Prelude.{◌≡◌, ◌≤◌, ◌<◌, ◌||◌, ◌==◌, length, take, drop, Ok, Err, IfOk, IfErr};
ghost use Rattle.std.specs.List.{list_all, prefix_len, suffix_len};
ghost use Rattle.hr_lex.specs.Bytes as lex;
ghost use Rattle.hr_line.specs.Bytes as spec;

use hr_base::is_printable;

/// How many bytes a line may have, without what ends it.
pub const MAX_LINE_BYTES: usize = 1024;

/// Why a line isn't read at all.
#[derive(Clone, Copy, Debug, PartialEq, Eq)]
pub enum LineFault {
    /// It has more than [`MAX_LINE_BYTES`] bytes.
    TooLong,
    /// It has a byte that is no blank and isn't printable.
    BadByte,
}

/// What a line feed ends, without the one carriage return that may stand right before the line feed.
pub fn without_return(line: &[u8]) -> &[u8]
    ensures { result.now ≡ spec.without_return line.now }
{
    line.strip_suffix(b"\r").unwrap_or(line)
}

/// What a line holds, without the blanks at its ends; or why it isn't read.
pub fn content_of(line: &[u8]) -> Result<&[u8], LineFault>
    ensures content { IfOk result (λ content. spec.content_of line.now ≡ Ok content.now) }
    ensures fault { IfErr result (λ fault. spec.content_of line.now ≡ Err fault) }
{
    if line.len() > MAX_LINE_BYTES {
        return Err(LineFault::TooLong);
    }
    if !all_line_bytes(line) {
        return Err(LineFault::BadByte);
    }
    Ok(end_trimmed(past_blanks(line)))
}

/// Whether what a line holds is nothing, or a comment.
pub fn is_skipped(content: &[u8]) -> bool
    ensures { result ≡ spec.is_skipped content.now }
{
    match content {
        [] => true,
        [first, ..] => *first == b'#',
    }
}

fn all_line_bytes(line: &[u8]) -> bool
    ensures { result ≡ list_all spec.is_line_byte line.now }
{
    line.iter().all(|b| is_line_byte(*b))
}

fn is_line_byte(b: u8) -> bool
    ensures { result ≡ spec.is_line_byte b }
{
    is_printable(b) || b == b'\t'
}

/// Whether a byte parts words: space and tab.
pub fn is_blank(b: u8) -> bool
    ensures { result ≡ lex.is_blank b }
{
    b == b' ' || b == b'\t'
}

/// A text from its first byte on that is no blank.
pub fn past_blanks(text: &[u8]) -> &[u8]
    ensures { result.now ≡ drop (prefix_len lex.is_blank text.now) text.now }
{
    &text[blanks_len(text)..]
}

fn blanks_len(text: &[u8]) -> usize
    ensures value { result ≡ prefix_len lex.is_blank text.now }
    ensures within { result ≤ length text.now }
{
    text.iter().take_while(|b| is_blank(**b)).count()
}

fn end_trimmed(text: &[u8]) -> &[u8]
    ensures { result.now ≡ spec.end_trimmed text.now }
{
    &text[..text.len() - end_blanks_len(text)]
}

fn end_blanks_len(text: &[u8]) -> usize
    ensures value { result ≡ suffix_len lex.is_blank text.now }
    ensures within { result ≤ length text.now }
{
    text.iter().rev().take_while(|b| is_blank(**b)).count()
}
