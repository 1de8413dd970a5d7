//! The columns of a table line.

ghost use Rattle.std.specs.Prelude.{◌≡◌, [], IfOk};
ghost use Rattle.std.specs.Option.{option_copied};
ghost use Rattle.hr_line.specs.Words.{pieces};
ghost use Rattle.hr_forms.specs.Columns as spec;

use crate::pieces::Pieces;
use crate::words::{is_over, named};
use hr_line::{LineName, Words, only};
use hr_rel::{ColKind, Name, Seq};
use std::alloc::{AllocError, Global};

/// A column as a table line gives it. The first one is the key.
#[derive(Clone, Copy)]
pub struct ColumnForm {
    /// In small letters; empty where it is too long.
    pub name: Name,
    /// Whether its name has more bytes than a name may have.
    pub is_too_long: bool,
    pub kind: ColKind,
    pub nullable: bool,
}

/// The columns between a table line's parentheses: the key, and others.
#[tactic(auto, unfolding(crate::specs::Columns::columns_of))]
pub fn columns_of(alloc: Global, text: &[u8]) -> Result<Option<Seq<ColumnForm>>, AllocError>
    ensures { IfOk result (λ columns. columns ≡ spec.columns_of text.now) }
{
    let mut pieces = Pieces::of(text);
    match key_column(alloc, pieces.next())? {
        Some(key) => with_others(alloc, key, pieces),
        None => Ok(None),
    }
}

/// The key, and the columns that the pieces behind it are.
fn with_others(
    alloc: Global,
    key: ColumnForm,
    pieces: Pieces<'_>,
) -> Result<Option<Seq<ColumnForm>>, AllocError>
    ensures { IfOk result (λ columns. columns ≡ spec.with_others key pieces.entry) }
{
    let mut rest = pieces;
    let mut columns = Seq::new(alloc);
    columns.push(key)?;
    'pieces: while let Some(piece) = rest.next() {
        let Some(column) = column_of(alloc, piece)? else {
            return Ok(None);
        };
        columns.push(column)?;
    }
    Ok(Some(columns))
}

/// `NAME int key`.
fn key_column(alloc: Global, piece: Option<&[u8]>) -> Result<Option<ColumnForm>, AllocError>
    ensures { IfOk result (λ column. column ≡ spec.key_column (option_copied piece.entry)) }
{
    let Some(piece) = piece else {
        return Ok(None);
    };
    let mut words = Words::of(piece);
    let name = named(alloc, words.next())?;
    Ok(column(name, key_kind(words)))
}

/// `NAME KIND` or `NAME KIND null`.
fn column_of(alloc: Global, piece: &[u8]) -> Result<Option<ColumnForm>, AllocError>
    ensures { IfOk result (λ column. column ≡ spec.column_of piece.now) }
{
    let mut words = Words::of(piece);
    let name = named(alloc, words.next())?;
    Ok(column(name, kind_of(words)))
}

fn column(name: Option<LineName>, kind: Option<(ColKind, bool)>) -> Option<ColumnForm>
    ensures { result ≡ spec.column name kind }
{
    match (name, kind) {
        (Some(name), Some((kind, nullable))) => Some(ColumnForm {
            name: short(&name),
            is_too_long: is_too_long(&name),
            kind,
            nullable,
        }),
        _ => None,
    }
}

/// A name, or the empty one where it is too long.
fn short(name: &LineName) -> Name
    ensures { result ≡ spec.short name.now }
{
    match name {
        LineName::Short(name) => *name,
        LineName::TooLong => no_name(),
    }
}

fn no_name() -> Name
    ensures { result ≡ [] }
{
    match Name::new(&[]) {
        Some(name) => name,
        None => unreachable!(),
    }
}

fn is_too_long(name: &LineName) -> bool
    ensures { result ≡ spec.is_too_long name.now }
{
    match name {
        LineName::Short(_) => false,
        LineName::TooLong => true,
    }
}

/// `int key`, and nothing behind it.
fn key_kind(mut words: Words<'_>) -> Option<(ColKind, bool)>
    ensures { result ≡ spec.key_kind words.entry }
{
    let first = words.next();
    if says(first, b"int") && says(only(words), b"key") {
        Some((ColKind::Int, false))
    } else {
        None
    }
}

/// A kind, and whether NULL may stand in the column.
fn kind_of(mut words: Words<'_>) -> Option<(ColKind, bool)>
    ensures { result ≡ spec.kind_of words.entry }
{
    let kind = kind_word(words.next());
    let nullable = null_word(words);
    with_null(kind, nullable)
}

fn with_null(kind: Option<ColKind>, nullable: Option<bool>) -> Option<(ColKind, bool)>
    ensures { result ≡ spec.with_null kind nullable }
{
    Some((kind?, nullable?))
}

fn kind_word(word: Option<&[u8]>) -> Option<ColKind>
    ensures { result ≡ spec.kind_word (option_copied word.entry) }
{
    if says(word, b"int") {
        return Some(ColKind::Int);
    }
    if says(word, b"text") {
        return Some(ColKind::Text);
    }
    None
}

/// Whether `null` stands there, and nothing else.
fn null_word(mut words: Words<'_>) -> Option<bool>
    ensures { result ≡ spec.null_word words.entry }
{
    let Some(word) = words.next() else {
        return Some(false);
    };
    if word == b"null".as_slice() && is_over(words) {
        Some(true)
    } else {
        None
    }
}

/// Whether there is a word, and it is this one.
pub fn says(word: Option<&[u8]>, text: &[u8]) -> bool
    ensures { result ≡ spec.says (option_copied word.entry) text.now }
{
    match word {
        Some(word) => word == text,
        None => false,
    }
}
