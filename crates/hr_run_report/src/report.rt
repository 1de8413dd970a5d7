//! The whole report, part by part.
ghost use Rattle.std.specs.Prelude.{◌≡◌, ◌≤◌, ◌+◌, ◌*◌, length, IfOk, string_bytes};
ghost use Rattle.hr_run_report.specs.Report as report;

use crate::commits::push_commits;
use crate::convictions::push_convictions;
use crate::replicas::push_replicas;
use crate::sessions::push_sessions;
use hr_forms::EngineKind;
use hr_rel::{Catalog, Rows, Seq};
use hr_schedule::Try;
use hr_shepherd::Shepherd;
use std::alloc::{AllocError, Global};

/// The report of a run, with line feeds at the ends of its lines. `kinds` are the replicas' engines, `tries` the tries of each
/// session in the order of their Begins, and `dumps` the rows that each replica has committed.
pub fn report_text(
    alloc: Global,
    kinds: &[EngineKind],
    catalog: &Catalog,
    shepherd: &Shepherd,
    tries: &[Seq<Try>],
    dumps: &[Rows],
) -> Result<String, AllocError>
    requires kinds { length kinds.now ≤ 2 * shepherd.now.f + 1 }
    ensures { IfOk result (λ text. string_bytes text ≡ report.report_text kinds.now catalog.now shepherd.now tries.now dumps.now) }
{
    let mut out = String::new(alloc);
    let commits = shepherd.view().log().len();
    writeln!(out, "hrdb report 1")?;
    writeln!(out, "commits {commits}")?;
    push_commits(&mut out, shepherd, tries)?;
    push_sessions(alloc, &mut out, shepherd, tries)?;
    push_convictions(&mut out, shepherd)?;
    push_replicas(&mut out, kinds, catalog, shepherd, dumps)?;
    writeln!(out, "end")?;
    Ok(out)
}
