//! The lines of rows.
ghost use Rattle.std.specs.Prelude.{◌≡◌, IfOk, OnOk, string_bytes};
ghost use Rattle.std.specs.List.{fold};
ghost use Rattle.hr_answer_text.specs.Answers.{row_text};
ghost use Rattle.hr_answer_reader.specs.Rows as spec;

use crate::number::key;
use hr_answer_text::push_row;
use hr_rel::{Name, Row, Seq, Value};
use std::alloc::{AllocError, Global};
use std::mem;

/// What is read so far of a row's line.
#[derive(Drop)]
struct Scan {
    values: Seq<Value>,
    /// The bytes of the value that is being read; of a text, those within its quotes.
    part: Seq<u8>,
    /// Whether it is a text.
    is_text: bool,
    /// Whether its quotes are open.
    is_quoted: bool,
}

/// The row that a line is; None where no row is written so.
#[tactic(auto, unfolding(crate::specs::Rows::row_of))]
pub fn read_row(alloc: Global, line: &[u8]) -> Result<Option<Row>, AllocError>
    ensures { IfOk result (λ row. row ≡ spec.row_of line.now) }
{
    let row = scanned(alloc, line)?;
    if is_text_of(alloc, &row, line)? {
        Ok(Some(row))
    } else {
        Ok(None)
    }
}

/// Whether a row is written so.
fn is_text_of(alloc: Global, row: &Row, line: &[u8]) -> Result<bool, AllocError>
    ensures { IfOk result (λ is. is ≡ spec.is_text_of row.now line.now) }
{
    let mut text = String::new(alloc);
    push_row(&mut text, row.as_slice())?;
    Ok(text.as_bytes() == line)
}

/// The row that a line is, if it is one.
fn scanned(alloc: Global, line: &[u8]) -> Result<Row, AllocError>
    ensures { IfOk result (λ row. row ≡ spec.scanned line.now) }
{
    let mut scan = Scan::new(alloc);
    'bytes: for byte in line {
        scan.take(alloc, *byte)?;
    }
    let Scan { values, .. } = scan;
    Ok(values)
}

impl Scan {
    fn new(alloc: Global) -> Scan
        ensures { result ≡ spec.start }
    {
        Scan {
            values: Seq::new(alloc),
            part: Seq::new(alloc),
            is_text: false,
            is_quoted: false,
        }
    }

    fn take(&mut self, alloc: Global, byte: u8) -> Result<(), AllocError>
        ensures { OnOk result (self.new ≡ spec.next self.old byte) }
    {
        if byte == b'\'' {
            return self.quote();
        }
        if self.is_quoted {
            return self.part.push(byte);
        }
        self.unquoted(alloc, byte)
    }

    fn unquoted(&mut self, alloc: Global, byte: u8) -> Result<(), AllocError>
        ensures { OnOk result (self.new ≡ spec.unquoted self.old byte) }
    {
        match byte {
            b',' | b')' => self.finish(alloc),
            b' ' | b'(' => Ok(()),
            _ => self.part.push(byte),
        }
    }

    /// A quote opens a text or closes it; one that opens it again stands for itself.
    fn quote(&mut self) -> Result<(), AllocError>
        ensures { OnOk result (self.new ≡ spec.quote self.old) }
    {
        if self.is_text && !self.is_quoted {
            self.part.push(b'\'')?;
        }
        self.is_quoted = !self.is_quoted;
        self.is_text = true;
        Ok(())
    }

    /// The value ends here, where there is one.
    fn finish(&mut self, alloc: Global) -> Result<(), AllocError>
        ensures { OnOk result (self.new ≡ spec.finished self.old) }
    {
        if self.part.is_empty() && !self.is_text {
            return Ok(());
        }
        self.values
            .push(value_of(self.is_text, self.part.as_slice()))?;
        self.part = Seq::new(alloc);
        self.is_text = false;
        Ok(())
    }
}

fn value_of(is_text: bool, part: &[u8]) -> Value
    ensures { result ≡ spec.value_of is_text part.now }
{
    if is_text {
        text_value(part)
    } else {
        number_value(part)
    }
}

fn text_value(bytes: &[u8]) -> Value
    ensures { result ≡ spec.text_value bytes.now }
{
    match Name::new(bytes) {
        Some(name) => Value::Text(name),
        None => Value::Null,
    }
}

fn number_value(word: &[u8]) -> Value
    ensures { result ≡ spec.number_value word.now }
{
    match key(word) {
        Some(n) => Value::Int(n),
        None => Value::Null,
    }
}
