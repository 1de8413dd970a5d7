//! What each session has tried.
ghost use Rattle.std.specs.Prelude.{◌≡◌, ◌++◌, OnOk, string_bytes};
ghost use Rattle.std.specs.List.{flat_map};
ghost use Rattle.hr_base.specs.Texts.{each_from};
ghost use Rattle.hr_run_report.specs.Report as report;

use crate::endings::push_ending;
use hr_rel::Seq;
use hr_schedule::Try;
use hr_shepherd::Shepherd;
use std::alloc::{AllocError, Global};

/// Writes each session with its tries, and how each ended.
pub fn push_sessions(
    alloc: Global,
    out: &mut String,
    shepherd: &Shepherd,
    tries: &[Seq<Try>],
) -> Result<(), AllocError>
    ensures { OnOk result (string_bytes out.new ≡ string_bytes out.old ++ each_from (report.session_text shepherd.now) 1 tries.now) }
{
    'sessions: for (before, own) in tries.iter().enumerate() {
        push_session(alloc, out, shepherd, before + 1, own)?;
    }
    Ok(())
}

fn push_session(
    alloc: Global,
    out: &mut String,
    shepherd: &Shepherd,
    session: usize,
    tries: &Seq<Try>,
) -> Result<(), AllocError>
    ensures { OnOk result (string_bytes out.new ≡ string_bytes out.old ++ report.session_text shepherd.now session tries.now) }
{
    writeln!(out, "session {session}")?;
    push_tries(alloc, out, shepherd, tries.as_slice())
}

fn push_tries(
    alloc: Global,
    out: &mut String,
    shepherd: &Shepherd,
    tries: &[Try],
) -> Result<(), AllocError>
    ensures { OnOk result (string_bytes out.new ≡ string_bytes out.old ++ flat_map (report.try_text shepherd.now) tries.now) }
{
    'tries: for tried in tries {
        push_try(alloc, out, shepherd, tried)?;
    }
    Ok(())
}

fn push_try(
    alloc: Global,
    out: &mut String,
    shepherd: &Shepherd,
    tried: &Try,
) -> Result<(), AllocError>
    ensures { OnOk result (string_bytes out.new ≡ string_bytes out.old ++ report.try_text shepherd.now tried.now) }
{
    let Try { block, number, txn } = *tried;
    let ending = shepherd.ending(alloc, txn)?;
    write!(out, "block {block} try {number}")?;
    write!(out, " txn {txn} ")?;
    push_ending(out, ending.as_ref())
}
