//! The lines of a session.

ghost use Rattle.std.specs.Prelude.{◌≡◌};
ghost use Rattle.std.specs.Option.{option_copied};
ghost use Rattle.hr_line.specs.Scripts as spec;

use crate::words::{Words, only};

/// What a line of a session is.
#[derive(Clone, Copy, Debug, PartialEq, Eq)]
pub enum ScriptForm {
    /// `BEGIN`, in either case, with or without `;`.
    Begin,
    /// `COMMIT`, likewise.
    Commit,
    /// `ROLLBACK`, likewise.
    Rollback,
    /// `end`.
    End,
    /// Any other line.
    Statement,
}

/// What a line of a session is, by what it holds.
pub fn script_form_of(content: &[u8]) -> ScriptForm
    ensures { result ≡ spec.script_form_of content.now }
{
    if content == b"end".as_slice() {
        return ScriptForm::End;
    }
    command(only(Words::of(without_semicolon(content))))
}

fn without_semicolon(text: &[u8]) -> &[u8]
    ensures { result.now ≡ spec.without_semicolon text.now }
{
    text.strip_suffix(b";").unwrap_or(text)
}

fn command(word: Option<&[u8]>) -> ScriptForm
    ensures { result ≡ spec.command (option_copied word.entry) }
{
    let Some(word) = word else {
        return ScriptForm::Statement;
    };
    if word.eq_ignore_ascii_case(b"BEGIN") {
        return ScriptForm::Begin;
    }
    if word.eq_ignore_ascii_case(b"COMMIT") {
        return ScriptForm::Commit;
    }
    if word.eq_ignore_ascii_case(b"ROLLBACK") {
        return ScriptForm::Rollback;
    }
    ScriptForm::Statement
}
