//! The forms of a report's lines that have no answer and are no row.
ghost use Rattle.std.specs.Prelude.{◌≡◌};
ghost use Rattle.std.specs.Option.{option_copied};
ghost use Rattle.hr_report_reader.specs.Forms as spec;

use crate::ending::{ending, is_reason, is_state};
use crate::heading::{Heading, heading_of};
use crate::words::LineWords;
use hr_engine::TxnId;
use hr_rel::Name;

/// A line that has no answer and is no row.
#[derive(Clone, Copy)]
pub enum Form {
    /// `hrdb report 1`.
    Report,
    /// `commits N`.
    Commits(u64),
    /// `commit P session S block B txn T`.
    Commit(CommitLine),
    /// `session S`.
    Session(u64),
    /// `block B try K txn T ENDING`, and whether lines follow that tell the answers that differ.
    Try(bool),
    /// `convicted R REASON`.
    Convicted,
    /// `replica R KIND position P preempted N STATE`.
    Replica(u64),
    /// `table NAME N`.
    Table(TableLine),
    /// `end`.
    End,
}

/// What a committed transaction is.
#[derive(Clone, Copy)]
pub struct CommitLine {
    /// Its place among the commits, from 1.
    pub place: u64,
    pub session: u32,
    pub block: u32,
    pub txn: TxnId,
}

/// A table, and how many of its rows follow.
#[derive(Clone, Copy)]
pub struct TableLine {
    pub name: Name,
    pub rows: u64,
}

/// What a line is by its words; None where it has no form.
pub fn form_of(line: &[u8]) -> Option<Form>
    ensures { result ≡ spec.form_of line.now }
{
    let mut words = LineWords::of(line);
    let heading = heading_in(words.next())?;
    form_behind(heading, words)
}

fn heading_in(word: Option<&[u8]>) -> Option<Heading>
    ensures { result ≡ spec.heading_in (option_copied word.entry) }
{
    heading_of(word?)
}

fn form_behind(heading: Heading, words: LineWords<'_>) -> Option<Form>
    ensures { result ≡ spec.form_behind heading words.entry }
{
    match heading {
        Heading::Report => report(words),
        Heading::Commits => Some(Form::Commits(long_alone(words)?)),
        Heading::Commit => commit(words),
        Heading::Session => Some(Form::Session(long_alone(words)?)),
        Heading::Block => tried(words),
        Heading::Convicted => convicted(words),
        Heading::Replica => replica(words),
        Heading::Table => table(words),
        Heading::End => alone(words, Form::End),
    }
}

fn alone(words: LineWords<'_>, form: Form) -> Option<Form>
    ensures { result ≡ spec.alone words.entry form }
{
    if words.is_over() { Some(form) } else { None }
}

fn long_alone(mut words: LineWords<'_>) -> Option<u64>
    ensures { result ≡ spec.long_alone words.entry }
{
    let number = words.long();
    if words.is_over() { number } else { None }
}

/// `report 1`.
fn report(mut words: LineWords<'_>) -> Option<Form>
    ensures { result ≡ spec.report words.entry }
{
    let is_report = words.says(b"report");
    let is_first = words.says(b"1");
    if is_report && is_first {
        alone(words, Form::Report)
    } else {
        None
    }
}

/// `P session S block B txn T`.
fn commit(mut words: LineWords<'_>) -> Option<Form>
    ensures { result ≡ spec.commit words.entry }
{
    let place = words.long();
    let session = words.labelled_short(b"session");
    let block = words.labelled_short(b"block");
    let txn = words.labelled(b"txn");
    if words.is_over() {
        commit_of(place, session, block, txn)
    } else {
        None
    }
}

fn commit_of(
    place: Option<u64>,
    session: Option<u32>,
    block: Option<u32>,
    txn: Option<u64>,
) -> Option<Form>
    ensures { result ≡ spec.commit_of place session block txn }
{
    let place = place?;
    let session = session?;
    let block = block?;
    let txn = txn?;
    Some(Form::Commit(CommitLine {
        place,
        session,
        block,
        txn,
    }))
}

/// `B try K txn T ENDING`.
fn tried(mut words: LineWords<'_>) -> Option<Form>
    ensures { result ≡ spec.tried words.entry }
{
    let block = words.long();
    let number = words.labelled(b"try");
    let txn = words.labelled(b"txn");
    if block.is_some() && number.is_some() && txn.is_some() {
        Some(Form::Try(ending(words)?))
    } else {
        None
    }
}

/// `R REASON`.
fn convicted(mut words: LineWords<'_>) -> Option<Form>
    ensures { result ≡ spec.convicted words.entry }
{
    let replica = words.short();
    if replica.is_some() && is_reason(words) {
        Some(Form::Convicted)
    } else {
        None
    }
}

/// `R KIND position P preempted N STATE`.
fn replica(mut words: LineWords<'_>) -> Option<Form>
    ensures { result ≡ spec.replica words.entry }
{
    let replica = words.long();
    let kind = words.next();
    let position = words.labelled(b"position");
    let preempted = words.labelled(b"preempted");
    if is_kind(kind) && position.is_some() && preempted.is_some() && is_state(words) {
        Some(Form::Replica(replica?))
    } else {
        None
    }
}

fn is_kind(word: Option<&[u8]>) -> bool
    ensures { result ≡ spec.is_kind (option_copied word.entry) }
{
    match word {
        Some(word) => word == b"table".as_slice() || word == b"range".as_slice(),
        None => false,
    }
}

/// `NAME N`.
fn table(mut words: LineWords<'_>) -> Option<Form>
    ensures { result ≡ spec.table words.entry }
{
    let name = name_in(words.next());
    let rows = long_alone(words);
    table_of(name, rows)
}

fn name_in(word: Option<&[u8]>) -> Option<Name>
    ensures { result ≡ spec.name_in (option_copied word.entry) }
{
    name_of(word?)
}

fn name_of(word: &[u8]) -> Option<Name>
    ensures { result ≡ spec.name_of word.now }
{
    Name::new(word)
}

fn table_of(name: Option<Name>, rows: Option<u64>) -> Option<Form>
    ensures { result ≡ spec.table_of name rows }
{
    let name = name?;
    let rows = rows?;
    Some(Form::Table(TableLine { name, rows }))
}
