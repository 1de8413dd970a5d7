//! The committed transactions, in the order of the log.
ghost use Rattle.std.specs.Prelude.{◌≡◌, ◌≤◌, ◌++◌, OnOk, option_copied, string_bytes};
ghost use Rattle.std.specs.Option.{option_map};
ghost use Rattle.hr_base.specs.Lists.{numbered};
ghost use Rattle.hr_base.specs.Texts.{each_from};
ghost use Rattle.hr_history.specs.Processed.{given_in};
ghost use Rattle.hr_run_report.specs.Report as report;

use hr_answer_text::push_answer;
use hr_engine::{RunReply, TxnId};
use hr_progress::View;
use hr_rel::{Answer, Seq};
use hr_schedule::Try;
use hr_shepherd::Shepherd;
use std::alloc::AllocError;

/// Writes the committed transactions, each with its accepted answers.
pub fn push_commits(
    out: &mut String,
    shepherd: &Shepherd,
    tries: &[Seq<Try>],
) -> Result<(), AllocError>
    ensures { OnOk result (string_bytes out.new ≡ string_bytes out.old ++ each_from (report.commit_text shepherd.now tries.now) 1 (report.committed shepherd.now)) }
{
    push_log(out, shepherd, tries, shepherd.view().log())
}

fn push_log(
    out: &mut String,
    shepherd: &Shepherd,
    tries: &[Seq<Try>],
    log: &[TxnId],
) -> Result<(), AllocError>
    ensures { OnOk result (string_bytes out.new ≡ string_bytes out.old ++ each_from (report.commit_text shepherd.now tries.now) 1 log.now) }
{
    'log: for (before, txn) in log.iter().enumerate() {
        push_commit(out, shepherd, tries, before + 1, *txn)?;
    }
    Ok(())
}

fn push_commit(
    out: &mut String,
    shepherd: &Shepherd,
    tries: &[Seq<Try>],
    place: usize,
    txn: TxnId,
) -> Result<(), AllocError>
    ensures { OnOk result (string_bytes out.new ≡ string_bytes out.old ++ report.commit_text shepherd.now tries.now place txn) }
{
    let session = session_in(shepherd, txn);
    let block = block_of(txn, own_tries(tries, session));
    write!(out, "commit {place} session {session}")?;
    writeln!(out, " block {block} txn {txn}")?;
    push_answers(out, shepherd.view(), txn)
}

fn session_in(shepherd: &Shepherd, txn: TxnId) -> u32
    ensures { result ≡ report.session_in shepherd.now txn }
{
    shepherd.session(txn).unwrap_or(0)
}

// The tries of the session with this number, from 1.
fn own_tries(tries: &[Seq<Try>], session: u32) -> &[Try]
    ensures { result.now ≡ report.own_tries tries.now session }
{
    if session == 0 {
        return &[];
    }
    match tries.get((session - 1) as usize) {
        Some(own) => own.as_slice(),
        None => &[],
    }
}

// The number of the block that a transaction was a try of.
fn block_of(txn: TxnId, tries: &[Try]) -> usize
    ensures { result ≡ report.block_of txn tries.now }
{
    match tries {
        [first, ..] if first.txn == txn => first.block,
        [_, rest @ ..] => block_of(txn, rest),
        [] => 0,
    }
}

fn push_answers(out: &mut String, view: &View, txn: TxnId) -> Result<(), AllocError>
    ensures { OnOk result (string_bytes out.new ≡ string_bytes out.old ++ each_from report.numbered_answer 1 (given_in view.now txn)) }
{
    'answers: for before in 0..view.given(txn) {
        push_numbered_answer(out, view, txn, before + 1)?;
    }
    Ok(())
}

// Writes the answer that was given to a statement.
fn push_numbered_answer(
    out: &mut String,
    view: &View,
    txn: TxnId,
    index: u32,
) -> Result<(), AllocError>
    ensures { OnOk result (string_bytes out.new ≡ string_bytes out.old ++ report.text_if report.numbered_answer index (numbered (given_in view.now txn) index)) }
{
    let Some(answer) = given(view, txn, index) else {
        return Ok(());
    };
    write!(out, "answer {index} ")?;
    push_answer(out, answer)?;
    writeln!(out)
}

// The answer that was given to a statement, if one was.
fn given(view: &View, txn: TxnId, index: u32) -> Option<&Answer>
    ensures { option_copied result ≡ numbered (given_in view.now txn) index }
{
    let place = view.given_place(txn, index)?;
    answer_in(view.replies().get(place))
}

// The answer of a reply, if it has one.
fn answer_in(reply: Option<&RunReply>) -> Option<&Answer>
    ensures { option_copied result ≡ report.answer_in (option_copied reply.entry) }
{
    match reply {
        Some(RunReply::Done(answer)) => Some(answer),
        _ => None,
    }
}
