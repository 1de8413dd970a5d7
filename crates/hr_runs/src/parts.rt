//! The parts of a scenario, as the tests print them.

use hr_faulty::Fault;
use hr_reader::{Block, Choice, EngineKind};
use hr_rel::{Catalog, ColumnDef, Row, Seq, Table, Value, key_of};
use std::alloc::AllocError;

pub fn push_kinds(out: &mut String, kinds: &[EngineKind]) -> Result<(), AllocError> {
    for kind in kinds {
        match kind {
            EngineKind::ByTable => write!(out, " table")?,
            EngineKind::ByRange => write!(out, " range")?,
        }
    }
    Ok(())
}

/// Each table with its columns, of which those with an index have a `*`, and the keys of its rows in their order.
pub fn push_tables(out: &mut String, catalog: &Catalog, rows: &[Table]) -> Result<(), AllocError> {
    for (table, rows) in catalog.tables.as_slice().iter().zip(rows) {
        write!(out, "\ntable {:?}", table.name)?;
        push_columns(out, table.columns.as_slice())?;
        push_keys(out, rows.as_slice())?;
    }
    Ok(())
}

fn push_columns(out: &mut String, columns: &[ColumnDef]) -> Result<(), AllocError> {
    for column in columns {
        let star = if column.indexed { "*" } else { "" };
        let null = if column.nullable { "?" } else { "" };
        write!(out, " {:?}{star}{null}", column.name)?;
    }
    Ok(())
}

/// How many rows there are, and the keys of the first 8 of them.
fn push_keys(out: &mut String, rows: &[Row]) -> Result<(), AllocError> {
    write!(out, ", rows {}:", rows.len())?;
    for row in rows.iter().take(8) {
        match key_of(row) {
            Some(key) => write!(out, " {key}")?,
            None => write!(out, " no key")?,
        }
    }
    Ok(())
}

/// Each replica that has faults, with the numbers of their calls.
pub fn push_faults(out: &mut String, faults: &[Seq<Fault>]) -> Result<(), AllocError> {
    for (replica, faults) in faults.iter().enumerate() {
        if !faults.is_empty() {
            write!(out, "\nfaults of {replica}:")?;
            push_calls(out, faults.as_slice())?;
        }
    }
    Ok(())
}

fn push_calls(out: &mut String, faults: &[Fault]) -> Result<(), AllocError> {
    for fault in faults.iter().take(8) {
        write!(out, " {}", fault.call)?;
    }
    Ok(())
}

pub fn push_suspects(out: &mut String, suspects: &[u64]) -> Result<(), AllocError> {
    if suspects.is_empty() {
        return Ok(());
    }
    write!(out, "\nsuspects:")?;
    for after in suspects {
        write!(out, " {after}")?;
    }
    Ok(())
}

/// Each session, and of each of its transactions how many statements it has and how it ends.
pub fn push_scripts(out: &mut String, scripts: &[Seq<Block>]) -> Result<(), AllocError> {
    for blocks in scripts {
        write!(out, "\nsession:")?;
        push_blocks(out, blocks.as_slice())?;
    }
    Ok(())
}

fn push_blocks(out: &mut String, blocks: &[Block]) -> Result<(), AllocError> {
    for block in blocks {
        let end = if block.commits { "commit" } else { "rollback" };
        write!(out, " {} {end}", block.stmts.len())?;
        if block.texts.len() != block.stmts.len() {
            write!(out, " (not as many texts)")?;
        }
    }
    Ok(())
}

/// The first 40 choices of the schedule, where there is one.
pub fn push_schedule(out: &mut String, schedule: &Option<Seq<Choice>>) -> Result<(), AllocError> {
    let Some(choices) = schedule else {
        return Ok(());
    };
    write!(out, "\nschedule:")?;
    for choice in choices.as_slice().iter().take(40) {
        push_choice(out, *choice)?;
    }
    Ok(())
}

fn push_choice(out: &mut String, choice: Choice) -> Result<(), AllocError> {
    match choice {
        Choice::Session(number) => write!(out, " s{number}"),
        Choice::Both(number) => write!(out, " r{number}"),
        Choice::TakeJob(number) => write!(out, " t{number}"),
        Choice::GiveReply(number) => write!(out, " g{number}"),
        Choice::Rounds(count) => write!(out, " rounds {count}"),
    }
}
