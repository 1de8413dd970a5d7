//! What a line holds, as text.

ghost use Rattle.std.specs.Prelude.{◌≡◌, ◌≤◌, length, Ok, Err, IfOk, IfErr};
ghost use Rattle.std.specs.Str.{IsAscii};
ghost use Rattle.hr_line.specs.Bytes as spec;

use hr_line::{LineFault, MAX_LINE_BYTES, content_of};
use std::str;

/// What a line holds, without the blanks at its ends; or why it isn't read.
pub fn text_of(line: &[u8]) -> Result<&str, LineFault>
    ensures content { IfOk result (λ text. spec.content_of line.now ≡ Ok text.now) }
    ensures short { IfOk result (λ text. length text.now ≤ MAX_LINE_BYTES) }
    ensures ascii { IfOk result (λ text. IsAscii text.now) }
    ensures fault { IfErr result (λ fault. spec.content_of line.now ≡ Err fault) }
{
    match content_of(line) {
        Ok(content) => Ok(as_text(line, content)),
        Err(fault) => Err(fault),
    }
}

#[tactic(auto, using(crate::proofs::AsciiLemmas::content_is_text, crate::proofs::AsciiLemmas::content_is_ascii, crate::proofs::AsciiLemmas::content_is_short))]
fn as_text<'a>(line: &[u8], content: &'a [u8]) -> &'a str
    requires { spec.content_of line.now ≡ Ok content.now }
    ensures same { result.now ≡ content.now }
    ensures short { length result.now ≤ MAX_LINE_BYTES }
    ensures ascii { IsAscii result.now }
{
    match str::from_utf8(content) {
        Ok(text) => text,
        Err(_) => unreachable!(),
    }
}
