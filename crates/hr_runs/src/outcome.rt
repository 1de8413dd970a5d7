//! What comes of a text.

use crate::parts::{
    push_faults, push_kinds, push_schedule, push_scripts, push_suspects, push_tables,
};
use hr_reader::{InputError, InputKind, ReadError, Scenario, read};
use hr_rel::RunError;
use std::alloc::{AllocError, Global};

/// What a text says as a scenario, or where it is refused and why.
pub fn outcome(alloc: Global, text: &str) -> Result<String, AllocError> {
    let mut out = String::new(alloc);
    match read(alloc, text.as_bytes()) {
        Ok(scenario) => push_scenario(&mut out, &scenario)?,
        Err(ReadError::Refused(error)) => push_refusal(&mut out, error)?,
        Err(ReadError::NoMemory) => return Err(AllocError),
    }
    Ok(out)
}

/// The line and the kind's word, and behind them the cause, where there is one.
fn push_refusal(out: &mut String, error: InputError) -> Result<(), AllocError> {
    write!(out, "{error}")?;
    match error.kind {
        InputKind::Statement(cause) => write!(out, ", {cause}"),
        InputKind::Row(cause) => push_cause(out, cause),
        _ => Ok(()),
    }
}

fn push_cause(out: &mut String, cause: RunError) -> Result<(), AllocError> {
    match cause {
        RunError::DuplicateKey(key) => write!(out, ", key {key} is there"),
        RunError::NullRefused(column) => write!(out, ", NULL in column {column}"),
        _ => write!(out, ", no cause of a row"),
    }
}

fn push_scenario(out: &mut String, scenario: &Scenario) -> Result<(), AllocError> {
    let (liars, retries) = (scenario.f, scenario.retries);
    write!(out, "f {liars}, retries {retries}, replicas")?;
    push_kinds(out, scenario.kinds.as_slice())?;
    push_tables(out, &scenario.catalog, scenario.rows.as_slice())?;
    push_faults(out, scenario.faults.as_slice())?;
    push_suspects(out, scenario.suspects.as_slice())?;
    push_scripts(out, scenario.scripts.as_slice())?;
    push_schedule(out, &scenario.schedule)
}
