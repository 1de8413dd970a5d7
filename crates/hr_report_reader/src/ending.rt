//! How a try ended, why a replica was convicted, and what state it is in, as the words of a line say it.
ghost use Rattle.std.specs.Prelude.{◌≡◌};
ghost use Rattle.std.specs.Option.{option_copied};
ghost use Rattle.hr_report_reader.specs.Endings as spec;

use crate::words::{LineWords, are_numbers};

/// Whether lines follow that tell the answers that differ; None where the words are no ending.
pub fn ending(mut words: LineWords<'_>) -> Option<bool>
    ensures { result ≡ spec.ending words.entry }
{
    let word = words.next();
    if says(word, b"differ") {
        return differing(words);
    }
    if is_plain_ending(word, words) {
        Some(false)
    } else {
        None
    }
}

fn says(word: Option<&[u8]>, text: &[u8]) -> bool
    ensures { result ≡ spec.says (option_copied word.entry) text.now }
{
    match word {
        Some(word) => word == text,
        None => false,
    }
}

fn differing(mut words: LineWords<'_>) -> Option<bool>
    ensures { result ≡ spec.differing words.entry }
{
    let index = words.short();
    if index.is_some() && words.is_over() {
        Some(true)
    } else {
        None
    }
}

fn is_plain_ending(word: Option<&[u8]>, words: LineWords<'_>) -> bool
    ensures { result ≡ spec.is_plain_ending (option_copied word.entry) words.entry }
{
    if says(word, b"committed") {
        return is_long_alone(words);
    }
    if says(word, b"deadlock") {
        return are_numbers(words);
    }
    if says(word, b"primary") {
        return is_change(words);
    }
    is_bare_ending(word) && words.is_over()
}

fn is_bare_ending(word: Option<&[u8]>) -> bool
    ensures { result ≡ spec.is_bare_ending (option_copied word.entry) }
{
    says(word, b"rolledback") || says(word, b"memory") || says(word, b"unfinished")
}

fn is_long_alone(mut words: LineWords<'_>) -> bool
    ensures { result ≡ spec.is_long_alone words.entry }
{
    let number = words.long();
    number.is_some() && words.is_over()
}

/// `R lost`, `R convicted` or `R suspected`.
fn is_change(mut words: LineWords<'_>) -> bool
    ensures { result ≡ spec.is_change words.entry }
{
    let replica = words.short();
    let why = words.next();
    replica.is_some() && is_why(why) && words.is_over()
}

fn is_why(word: Option<&[u8]>) -> bool
    ensures { result ≡ spec.is_why (option_copied word.entry) }
{
    says(word, b"lost") || says(word, b"convicted") || says(word, b"suspected")
}

/// Whether words are the reason of a conviction.
pub fn is_reason(mut words: LineWords<'_>) -> bool
    ensures { result ≡ spec.is_reason words.entry }
{
    let word = words.next();
    if says(word, b"contradicted") || says(word, b"differs") {
        return names_statement(words);
    }
    if says(word, b"blocked") || says(word, b"deadlock") {
        return names_txn(words);
    }
    says(word, b"restart") && is_long_alone(words)
}

/// `txn T statement I`.
fn names_statement(mut words: LineWords<'_>) -> bool
    ensures { result ≡ spec.names_statement words.entry }
{
    let txn = words.labelled(b"txn");
    let index = words.labelled_short(b"statement");
    txn.is_some() && index.is_some() && words.is_over()
}

/// `txn T`.
fn names_txn(mut words: LineWords<'_>) -> bool
    ensures { result ≡ spec.names_txn words.entry }
{
    let txn = words.labelled(b"txn");
    txn.is_some() && words.is_over()
}

/// Whether words are a replica's state, with ` primary` behind it or not.
pub fn is_state(mut words: LineWords<'_>) -> bool
    ensures { result ≡ spec.is_state words.entry }
{
    let word = words.next();
    is_state_word(word) && is_role(words)
}

fn is_state_word(word: Option<&[u8]>) -> bool
    ensures { result ≡ spec.is_state_word (option_copied word.entry) }
{
    says(word, b"live") || says(word, b"lost") || says(word, b"convicted")
}

/// Nothing, or `primary`.
fn is_role(mut words: LineWords<'_>) -> bool
    ensures { result ≡ spec.is_role words.entry }
{
    let word = words.next();
    word.is_none() || (says(word, b"primary") && words.is_over())
}
