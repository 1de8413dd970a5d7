//! Where each replica stands, with the rows that it has committed.
ghost use Rattle.std.specs.Prelude.{◌≡◌, ◌++◌, ◌+◌, ◌*◌, ◌<◌, ◌≤◌, ◌^◌, true, length, slice_get, option_copied, OnOk, string_bytes};
ghost use Rattle.std.specs.List.{flat_map, list_all, zip};
ghost use Rattle.hr_base.specs.Bytes.{is_printable};
ghost use Rattle.hr_base.specs.Texts.{each_from};
ghost use Rattle.hr_history.specs.Processed.{is_primary};
ghost use Rattle.hr_ledger.specs.Chronicle.{view_in};
ghost use Rattle.hr_run_report.specs.Report as report;

use crate::convictions::preempted;
use hr_answer_text::push_row;
use hr_forms::EngineKind;
use hr_rel::{Catalog, Row, Rows, Table, TableDef};
use hr_shepherd::Shepherd;
use std::alloc::AllocError;

/// Writes the replicas, by their numbers.
pub fn push_replicas(
    out: &mut String,
    kinds: &[EngineKind],
    catalog: &Catalog,
    shepherd: &Shepherd,
    dumps: &[Rows],
) -> Result<(), AllocError>
    requires { length kinds.now ≤ 2 * shepherd.now.f + 1 }
    ensures { OnOk result (string_bytes out.new ≡ string_bytes out.old ++ each_from (report.replica_text shepherd.now catalog.now) 0 (zip kinds.now dumps.now)) }
{
    'replicas: for replica in 0..2 * shepherd.view().f() + 1 {
        push_replica(out, replica, kinds, catalog, shepherd, dumps)?;
    }
    Ok(())
}

fn kind_at(kinds: &[EngineKind], replica: u32) -> Option<&EngineKind>
    ensures { option_copied result ≡ slice_get kinds.now replica }
{
    kinds.get(replica as usize)
}

fn dump_at(dumps: &[Rows], replica: u32) -> Option<&Rows>
    ensures { option_copied result ≡ slice_get dumps.now replica }
{
    dumps.get(replica as usize)
}

// Writes a replica with its committed rows, where there is such a one.
fn push_replica(
    out: &mut String,
    replica: u32,
    kinds: &[EngineKind],
    catalog: &Catalog,
    shepherd: &Shepherd,
    dumps: &[Rows],
) -> Result<(), AllocError>
    requires { replica ≤ 2 * shepherd.now.f }
    ensures { OnOk result (string_bytes out.new ≡ string_bytes out.old ++ report.text_if (report.replica_text shepherd.now catalog.now) replica (slice_get (zip kinds.now dumps.now) replica)) }
{
    let Some(kind) = kind_at(kinds, replica) else {
        return Ok(());
    };
    let Some(tables) = dump_at(dumps, replica) else {
        return Ok(());
    };
    push_held(out, replica, *kind, catalog, shepherd, tables)
}

// Writes where a replica stands, and the rows that it has committed.
fn push_held(
    out: &mut String,
    replica: u32,
    kind: EngineKind,
    catalog: &Catalog,
    shepherd: &Shepherd,
    tables: &Rows,
) -> Result<(), AllocError>
    requires { replica ≤ 2 * shepherd.now.f }
    ensures { OnOk result (string_bytes out.new ≡ string_bytes out.old ++ report.replica_text shepherd.now catalog.now replica (kind, tables.now)) }
{
    push_standing(out, replica, kind, shepherd)?;
    push_tables(out, catalog.tables.as_slice(), tables.as_slice())
}

// Writes the line that tells where a replica stands.
fn push_standing(
    out: &mut String,
    replica: u32,
    kind: EngineKind,
    shepherd: &Shepherd,
) -> Result<(), AllocError>
    requires { replica ≤ 2 * shepherd.now.f }
    ensures { OnOk result (string_bytes out.new ≡ string_bytes out.old ++ report.standing_line shepherd.now replica kind) }
{
    push_kind(out, replica, kind)?;
    push_work(out, replica, shepherd)?;
    push_state(out, replica, shepherd)
}

fn push_kind(out: &mut String, replica: u32, kind: EngineKind) -> Result<(), AllocError>
    ensures { OnOk result (string_bytes out.new ≡ string_bytes out.old ++ report.kind_text replica kind) }
{
    write!(out, "replica {replica} ")?;
    out.push_str(kind_word(kind))
}

// Writes how much a replica has committed, and how often a transaction gave way there.
fn push_work(out: &mut String, replica: u32, shepherd: &Shepherd) -> Result<(), AllocError>
    requires { replica ≤ 2 * shepherd.now.f }
    ensures { OnOk result (string_bytes out.new ≡ string_bytes out.old ++ report.work_text shepherd.now replica) }
{
    let position = shepherd.view().position(replica);
    let preempted = preempted(shepherd, replica);
    write!(out, " position {position} preempted {preempted}")
}

fn push_state(out: &mut String, replica: u32, shepherd: &Shepherd) -> Result<(), AllocError>
    requires { replica ≤ 2 * shepherd.now.f }
    ensures { OnOk result (string_bytes out.new ≡ string_bytes out.old ++ report.state_text shepherd.now replica) }
{
    let view = shepherd.view();
    write!(out, " ")?;
    out.push_str(state_word(view.is_convicted(replica), view.is_lost(replica)))?;
    out.push_str(role_text(is_primary(shepherd, replica)))?;
    writeln!(out)
}

fn kind_word(kind: EngineKind) -> &'static str
    ensures { result.now ≡ report.kind_word kind }
{
    match kind {
        EngineKind::ByTable => "table",
        EngineKind::ByRange => "range",
    }
}

fn state_word(convicted: bool, lost: bool) -> &'static str
    ensures { result.now ≡ report.state_word convicted lost }
{
    if convicted {
        "convicted"
    } else if lost {
        "lost"
    } else {
        "live"
    }
}

fn is_primary(shepherd: &Shepherd, replica: u32) -> bool
    ensures { result ≡ is_primary (view_in shepherd.now) replica }
{
    match shepherd.primary() {
        Some(primary) => primary == replica,
        None => false,
    }
}

fn role_text(is_primary: bool) -> &'static str
    ensures { result.now ≡ report.role_text is_primary }
{
    if is_primary { " primary" } else { "" }
}

fn push_tables(out: &mut String, defs: &[TableDef], tables: &[Table]) -> Result<(), AllocError>
    ensures { OnOk result (string_bytes out.new ≡ string_bytes out.old ++ flat_map report.table_text (zip defs.now tables.now)) }
{
    let [def, defs @ ..] = defs else {
        return Ok(());
    };
    let [rows, tables @ ..] = tables else {
        return Ok(());
    };
    push_table(out, def, rows)?;
    push_tables(out, defs, tables)
}

fn push_table(out: &mut String, def: &TableDef, rows: &Table) -> Result<(), AllocError>
    ensures { OnOk result (string_bytes out.new ≡ string_bytes out.old ++ report.table_text (def.now, rows.now)) }
{
    let count = rows.len();
    write!(out, "table ")?;
    push_plain(out, def.name.bytes())?;
    writeln!(out, " {count}")?;
    push_rows(out, rows.as_slice())
}

// Writes rows, each on a line of its own.
fn push_rows(out: &mut String, rows: &[Row]) -> Result<(), AllocError>
    ensures { OnOk result (string_bytes out.new ≡ string_bytes out.old ++ report.rows_text rows.now) }
{
    'rows: for row in rows {
        push_row(out, row.as_slice())?;
        writeln!(out)?;
    }
    Ok(())
}

// Writes the bytes of a name as they are.
fn push_plain(out: &mut String, bytes: &[u8]) -> Result<(), AllocError>
    requires { list_all is_printable bytes.now ≡ true }
    ensures { OnOk result (string_bytes out.new ≡ string_bytes out.old ++ bytes.now) }
{
    'bytes: for byte in bytes {
        out.push(*byte as char)?;
    }
    Ok(())
}
