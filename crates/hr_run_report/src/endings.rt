//! How a transaction ended, and if it was refused, why.
ghost use Rattle.std.specs.Prelude.{◌≡◌, ◌++◌, OnOk, option_copied, string_bytes};
ghost use Rattle.hr_run_report.specs.Endings as endings;

use hr_answer_text::push_answer;
use hr_engine::TxnId;
use hr_history::{Cause, Ending, Why};
use hr_rel::Answer;
use std::alloc::AllocError;

/// Writes how a transaction ended.
pub fn push_ending(out: &mut String, ending: Option<&Ending>) -> Result<(), AllocError>
    ensures { OnOk result (string_bytes out.new ≡ string_bytes out.old ++ endings.ending_text (option_copied ending.entry)) }
{
    match ending {
        None => writeln!(out, "unfinished"),
        Some(Ending::Committed(place)) => writeln!(out, "committed {place}"),
        Some(Ending::RolledBack) => writeln!(out, "rolledback"),
        Some(Ending::Refused(cause)) => push_cause(out, cause),
    }
}

fn push_cause(out: &mut String, cause: &Cause) -> Result<(), AllocError>
    ensures { OnOk result (string_bytes out.new ≡ string_bytes out.old ++ endings.cause_text cause.now) }
{
    match cause {
        Cause::Deadlock(cycle) => push_deadlock(out, cycle.as_slice()),
        Cause::PrimaryChanged { from, why } => push_primary(out, *from, *why),
        Cause::Differ {
            index,
            given,
            agreed,
        } => push_differ(out, *index, given, agreed),
        Cause::PrimaryMemory => writeln!(out, "memory"),
    }
}

fn push_deadlock(out: &mut String, cycle: &[TxnId]) -> Result<(), AllocError>
    ensures { OnOk result (string_bytes out.new ≡ string_bytes out.old ++ endings.deadlock_text cycle.now) }
{
    write!(out, "deadlock")?;
    push_numbers(out, cycle)?;
    writeln!(out)
}

fn push_numbers(out: &mut String, numbers: &[TxnId]) -> Result<(), AllocError>
    ensures { OnOk result (string_bytes out.new ≡ string_bytes out.old ++ endings.numbers_text numbers.now) }
{
    'numbers: for number in numbers {
        write!(out, " {number}")?;
    }
    Ok(())
}

fn push_primary(out: &mut String, from: u32, why: Why) -> Result<(), AllocError>
    ensures { OnOk result (string_bytes out.new ≡ string_bytes out.old ++ endings.primary_text from why) }
{
    write!(out, "primary {from} ")?;
    out.push_str(why_text(why))?;
    writeln!(out)
}

fn why_text(why: Why) -> &'static str
    ensures { result.now ≡ endings.why_text why }
{
    match why {
        Why::Convicted => "convicted",
        Why::Lost => "lost",
        Why::Suspected => "suspected",
    }
}

fn push_differ(
    out: &mut String,
    index: u32,
    given: &Answer,
    agreed: &Answer,
) -> Result<(), AllocError>
    ensures { OnOk result (string_bytes out.new ≡ string_bytes out.old ++ endings.differ_text index given.now agreed.now) }
{
    writeln!(out, "differ {index}")?;
    write!(out, "given ")?;
    push_answer(out, given)?;
    writeln!(out)?;
    write!(out, "agreed ")?;
    push_answer(out, agreed)?;
    writeln!(out)
}
