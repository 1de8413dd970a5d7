//! The lines outside of sessions and schedules.

ghost use Rattle.std.specs.Prelude.{◌≡◌, ◌≤◌, length, map, IfOk};
ghost use Rattle.std.specs.Option.{option_copied};
ghost use Rattle.hr_forms.specs.Forms as spec;

use crate::act::{ActForm, lie_of, loss_of};
use crate::column::{ColumnForm, columns_of, says};
use crate::heading::{Heading, heading_of};
use crate::words::{is_over, named, number_in, one_number};
use hr_line::{LineName, Number, Words, only};
use hr_rel::Seq;
use std::alloc::{AllocError, Global};

/// What the engine of a replica locks: whole tables, or ranges of keys.
#[derive(Clone, Copy, Debug, PartialEq, Eq)]
pub enum EngineKind {
    ByTable,
    ByRange,
}

/// A line outside of sessions and schedules, with its names and numbers as they are written.
#[derive(Drop)]
pub enum LineForm {
    /// `hrdb N`.
    Version(Number),
    /// `f N`.
    Liars(Number),
    /// `replicas KIND ..`; None stands for a word that names no engine.
    Replicas(Seq<Option<EngineKind>>),
    /// `retries N`.
    Retries(Number),
    /// `table NAME (COL int key, COL KIND [null], ..)`.
    Table {
        name: LineName,
        columns: Seq<ColumnForm>,
    },
    /// `index TABLE COL`.
    Index {
        table: LineName,
        column: LineName,
    },
    /// `row TABLE (..`: what begins at [`tuple_place`] is its tuple, which isn't looked at here.
    Row {
        table: LineName,
    },
    /// `lie R CALL ACT`, `lose R CALL before` and `lose R CALL after`.
    Fault {
        replica: Number,
        call: Number,
        act: ActForm,
    },
    /// `suspect after N`.
    Suspect(Number),
    /// `session`.
    Session,
    /// `schedule`.
    Schedule,
    // Lines that are still to come are further variants: a wipe, a disk's fault, frames.
}

/// What a line is by what it holds, without the blanks at its ends; None where it has no form.
pub fn form_of(alloc: Global, content: &[u8]) -> Result<Option<LineForm>, AllocError>
    ensures { IfOk result (λ form. form ≡ spec.form_of content.now) }
{
    let at = tuple_place(content);
    let words = Words::of(&content[..at]);
    if at < content.len() {
        opened(alloc, words, &content[at + 1..])
    } else {
        headed(alloc, words)
    }
}

/// The place of a line's first parenthesis, or of its end.
pub fn tuple_place(content: &[u8]) -> usize
    ensures place { result ≡ spec.tuple_place content.now }
    ensures within { result ≤ length content.now }
{
    content.iter().take_while(|b| **b != b'(').count()
}

/// A line with a parenthesis, by the words before it and what stands behind it.
fn opened(
    alloc: Global,
    mut words: Words<'_>,
    behind: &[u8],
) -> Result<Option<LineForm>, AllocError>
    ensures { IfOk result (λ form. form ≡ spec.opened words.entry behind.now) }
{
    let first = words.next();
    let name = named(alloc, only(words))?;
    if says(first, b"table") {
        return Ok(table(name, closed_columns(alloc, behind)?));
    }
    if says(first, b"row") {
        return Ok(row(name));
    }
    Ok(None)
}

fn closed_columns(alloc: Global, behind: &[u8]) -> Result<Option<Seq<ColumnForm>>, AllocError>
    ensures { IfOk result (λ columns. columns ≡ spec.closed_columns behind.now) }
{
    match closed(behind) {
        Some(inner) => columns_of(alloc, inner),
        None => Ok(None),
    }
}

/// A text without the parenthesis that ends it.
fn closed(text: &[u8]) -> Option<&[u8]>
    ensures { option_copied result ≡ spec.closed text.now }
{
    text.strip_suffix(b")")
}

fn table(name: Option<LineName>, columns: Option<Seq<ColumnForm>>) -> Option<LineForm>
    ensures { result ≡ spec.table name columns }
{
    Some(LineForm::Table {
        name: name?,
        columns: columns?,
    })
}

fn row(name: Option<LineName>) -> Option<LineForm>
    ensures { result ≡ spec.row name }
{
    Some(LineForm::Row { table: name? })
}

/// A line without a parenthesis, by its words.
fn headed(alloc: Global, mut words: Words<'_>) -> Result<Option<LineForm>, AllocError>
    ensures { IfOk result (λ form. form ≡ spec.headed words.entry) }
{
    let Some(word) = words.next() else {
        return Ok(None);
    };
    match heading_of(word) {
        Some(heading) => form_behind(alloc, heading, words),
        None => Ok(None),
    }
}

/// What the words behind a first word make of it.
fn form_behind(
    alloc: Global,
    heading: Heading,
    words: Words<'_>,
) -> Result<Option<LineForm>, AllocError>
    ensures { IfOk result (λ form. form ≡ spec.form_behind heading words.entry) }
{
    match heading {
        Heading::Version => Ok(version(one_number(words))),
        Heading::Liars => Ok(liars(one_number(words))),
        Heading::Replicas => Ok(Some(LineForm::Replicas(kinds_of(alloc, words)?))),
        Heading::Retries => Ok(retries(one_number(words))),
        Heading::Index => index_form(alloc, words),
        Heading::Lie => lie_form(alloc, words),
        Heading::Lose => Ok(lose_form(words)),
        Heading::Suspect => Ok(suspect_form(words)),
        Heading::Session => Ok(alone(words, LineForm::Session)),
        Heading::Schedule => Ok(alone(words, LineForm::Schedule)),
    }
}

fn version(number: Option<Number>) -> Option<LineForm>
    ensures { result ≡ spec.version number }
{
    Some(LineForm::Version(number?))
}

fn liars(number: Option<Number>) -> Option<LineForm>
    ensures { result ≡ spec.liars number }
{
    Some(LineForm::Liars(number?))
}

fn retries(number: Option<Number>) -> Option<LineForm>
    ensures { result ≡ spec.retries number }
{
    Some(LineForm::Retries(number?))
}

/// The engines that words name.
fn kinds_of(alloc: Global, words: Words<'_>) -> Result<Seq<Option<EngineKind>>, AllocError>
    ensures { IfOk result (λ kinds. kinds ≡ map spec.kind_named words.entry) }
{
    let mut rest = words;
    let mut kinds = Seq::new(alloc);
    'words: while let Some(word) = rest.next() {
        kinds.push(kind_named(word))?;
    }
    Ok(kinds)
}

fn kind_named(word: &[u8]) -> Option<EngineKind>
    ensures { result ≡ spec.kind_named word.now }
{
    if word == b"table".as_slice() {
        return Some(EngineKind::ByTable);
    }
    if word == b"range".as_slice() {
        return Some(EngineKind::ByRange);
    }
    None
}

fn index_form(alloc: Global, mut words: Words<'_>) -> Result<Option<LineForm>, AllocError>
    ensures { IfOk result (λ form. form ≡ spec.index_form words.entry) }
{
    let table = named(alloc, words.next())?;
    let column = named(alloc, only(words))?;
    Ok(index(table, column))
}

fn index(table: Option<LineName>, column: Option<LineName>) -> Option<LineForm>
    ensures { result ≡ spec.index table column }
{
    Some(LineForm::Index {
        table: table?,
        column: column?,
    })
}

fn lie_form(alloc: Global, mut words: Words<'_>) -> Result<Option<LineForm>, AllocError>
    ensures { IfOk result (λ form. form ≡ spec.lie_form words.entry) }
{
    let replica = number_in(words.next());
    let call = number_in(words.next());
    let act = lie_of(alloc, words)?;
    Ok(fault(replica, call, act))
}

fn lose_form(mut words: Words<'_>) -> Option<LineForm>
    ensures { result ≡ spec.lose_form words.entry }
{
    let replica = number_in(words.next());
    let call = number_in(words.next());
    fault(replica, call, loss_of(words))
}

fn fault(replica: Option<Number>, call: Option<Number>, act: Option<ActForm>) -> Option<LineForm>
    ensures { result ≡ spec.fault replica call act }
{
    Some(LineForm::Fault {
        replica: replica?,
        call: call?,
        act: act?,
    })
}

fn suspect_form(mut words: Words<'_>) -> Option<LineForm>
    ensures { result ≡ spec.suspect_form words.entry }
{
    let first = words.next();
    if says(first, b"after") {
        suspect(one_number(words))
    } else {
        None
    }
}

fn suspect(number: Option<Number>) -> Option<LineForm>
    ensures { result ≡ spec.suspect number }
{
    Some(LineForm::Suspect(number?))
}

/// A form of one word, where there is no other.
fn alone(words: Words<'_>, form: LineForm) -> Option<LineForm>
    ensures { result ≡ spec.alone words.entry form }
{
    if is_over(words) { Some(form) } else { None }
}
