//! How answers are written.
ghost use Rattle.std.specs.Prelude.{◌≡◌, ◌++◌, ◌<◌, true, IfOk, OnOk, string_bytes};
ghost use Rattle.std.specs.List.{flat_map, list_all};
ghost use Rattle.hr_base.specs.Bytes.{is_printable};
ghost use Rattle.hr_base.specs.Texts.{quoted_byte, doubled};
ghost use Rattle.hr_answer_text.specs.Answers.{value_text, more_values, values_text, row_text, row_lines, error_text, answer_text};

use hr_rel::{Answer, Row, RunError, Value};
use std::alloc::{AllocError, Global};

/// The text of an answer: a line, and for rows a line for each of them, with line feeds between them and none at the end.
pub fn write(alloc: Global, answer: &Answer) -> Result<String, AllocError>
    ensures { IfOk result (λ text. string_bytes text ≡ answer_text answer.now) }
{
    let mut text = String::new(alloc);
    push_answer(&mut text, answer)?;
    Ok(text)
}

/// Writes an answer's text behind what stands there.
pub fn push_answer(out: &mut String, answer: &Answer) -> Result<(), AllocError>
    ensures { OnOk result (string_bytes out.new ≡ string_bytes out.old ++ answer_text answer.now) }
{
    match answer {
        Answer::Rows(rows) => {
            let count = rows.len();
            write!(out, "rows {count}")?;
            push_rows(out, rows.as_slice())
        }
        Answer::Count(count) => write!(out, "count {count}"),
        Answer::Failed(error) => {
            write!(out, "failed ")?;
            push_error(out, error)
        }
    }
}

fn push_rows(out: &mut String, rows: &[Row]) -> Result<(), AllocError>
    ensures { OnOk result (string_bytes out.new ≡ string_bytes out.old ++ row_lines rows.now) }
{
    'rows: for row in rows {
        writeln!(out)?;
        push_row(out, row.as_slice())?;
    }
    Ok(())
}

/// Writes a row behind what stands there: its values as SQL literals, in parentheses.
pub fn push_row(out: &mut String, row: &[Value]) -> Result<(), AllocError>
    ensures { OnOk result (string_bytes out.new ≡ string_bytes out.old ++ row_text row.now) }
{
    write!(out, "(")?;
    if let [first, more @ ..] = row {
        push_value(out, first)?;
        push_more_values(out, more)?;
    }
    write!(out, ")")
}

fn push_more_values(out: &mut String, values: &[Value]) -> Result<(), AllocError>
    ensures { OnOk result (string_bytes out.new ≡ string_bytes out.old ++ more_values values.now) }
{
    'values: for value in values {
        write!(out, ", ")?;
        push_value(out, value)?;
    }
    Ok(())
}

fn push_value(out: &mut String, value: &Value) -> Result<(), AllocError>
    ensures { OnOk result (string_bytes out.new ≡ string_bytes out.old ++ value_text value.now) }
{
    match value {
        Value::Null => write!(out, "NULL"),
        Value::Int(n) => write!(out, "{n}"),
        Value::Text(name) => {
            write!(out, "'")?;
            push_quoted(out, name.bytes())?;
            write!(out, "'")
        }
    }
}

fn push_error(out: &mut String, error: &RunError) -> Result<(), AllocError>
    ensures { OnOk result (string_bytes out.new ≡ string_bytes out.old ++ error_text error.now) }
{
    match error {
        RunError::DuplicateKey(key) => write!(out, "duplicate {key}"),
        RunError::Overflow => write!(out, "overflow"),
        RunError::NullRefused(column) => write!(out, "null {column}"),
        RunError::TooManyRows => write!(out, "toomany"),
        RunError::Unfit => write!(out, "unfit"),
    }
}

// Writes the bytes of a text value, with quotes doubled.
fn push_quoted(out: &mut String, bytes: &[u8]) -> Result<(), AllocError>
    requires { list_all is_printable bytes.now ≡ true }
    ensures { OnOk result (string_bytes out.new ≡ string_bytes out.old ++ doubled bytes.now) }
{
    'bytes: for byte in bytes {
        push_byte(out, *byte)?;
    }
    Ok(())
}

fn push_byte(out: &mut String, byte: u8) -> Result<(), AllocError>
    requires { byte < 128 }
    ensures { OnOk result (string_bytes out.new ≡ string_bytes out.old ++ quoted_byte byte) }
{
    if byte == b'\'' {
        out.push_str("''")
    } else {
        out.push(byte as char)
    }
}
