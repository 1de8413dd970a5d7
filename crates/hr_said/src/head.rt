//! The lines that say how many replicas there are, of which kind, and how often transactions are tried.

ghost use Rattle.std.specs.Prelude.{◌≡◌, ◌+◌, replicate, [], map, length, IfOk};
ghost use Rattle.std.specs.List.{list_any};
ghost use Rattle.hr_said.specs.Head as spec;
ghost use Rattle.hr_said.specs.Outcomes.{Gives};

use crate::error::{InputKind, LineError};
use crate::limits::{MAX_RETRIES, is_within, may_stand, small};
use crate::said::Said;
use hr_base::limits::MAX_F;
use hr_faulty::Fault;
use hr_forms::EngineKind;
use hr_line::Number;
use hr_rel::Seq;
use std::alloc::{AllocError, Global};

/// `hrdb N`.
pub fn version(said: &mut Said, number: Number) -> Result<(), LineError>
    ensures { Gives (spec.version said.old number) said.new result }
{
    if let Some(kind) = version_refusal(said, number) {
        return Err(LineError::Refused(kind));
    }
    said.part = 1;
    Ok(())
}

fn version_refusal(said: &Said, number: Number) -> Option<InputKind>
    ensures { result ≡ spec.version_refusal said.now number }
{
    if said.part == 0 && !is_within(1, 1, number) {
        return Some(InputKind::Version);
    }
    if !may_stand(said.part, 1) {
        return Some(InputKind::Form);
    }
    None
}

/// `f N`.
pub fn liars(said: &mut Said, number: Number) -> Result<(), LineError>
    ensures { Gives (spec.liars said.old number) said.new result }
{
    if let Some(kind) = liars_refusal(said, number) {
        return Err(LineError::Refused(kind));
    }
    said.part = 2;
    said.f = small(number);
    Ok(())
}

fn liars_refusal(said: &Said, number: Number) -> Option<InputKind>
    ensures { result ≡ spec.liars_refusal said.now number }
{
    if !may_stand(said.part, 2) {
        return Some(InputKind::Form);
    }
    if !is_within(0, u64::from(MAX_F), number) {
        return Some(InputKind::Limit);
    }
    None
}

/// `replicas KIND ..`.
pub fn replicas(
    alloc: Global,
    said: &mut Said,
    kinds: &Seq<Option<EngineKind>>,
) -> Result<(), LineError>
    ensures { Gives (spec.replicas said.old kinds.now) said.new result }
{
    if let Some(kind) = replicas_refusal(said, kinds.as_slice()) {
        return Err(LineError::Refused(kind));
    }
    said.part = 3;
    said.kinds = known(alloc, kinds.as_slice())?;
    said.faults = no_faults(alloc, kinds.len())?;
    Ok(())
}

fn replicas_refusal(said: &Said, kinds: &[Option<EngineKind>]) -> Option<InputKind>
    ensures { result ≡ spec.replicas_refusal said.now kinds.now }
{
    if !may_stand(said.part, 3) || kinds.len() as u64 != 2 * u64::from(said.f) + 1 {
        return Some(InputKind::Form);
    }
    if any_missing(kinds) {
        return Some(InputKind::Unknown);
    }
    None
}

fn any_missing(kinds: &[Option<EngineKind>]) -> bool
    ensures { result ≡ list_any spec.is_missing kinds.now }
{
    kinds.iter().any(|kind| is_missing(kind))
}

fn is_missing(kind: &Option<EngineKind>) -> bool
    ensures { result ≡ spec.is_missing kind.now }
{
    kind.is_none()
}

fn known(alloc: Global, kinds: &[Option<EngineKind>]) -> Result<Seq<EngineKind>, AllocError>
    ensures { IfOk result (λ all. all ≡ map spec.known kinds.now) }
{
    let mut all = Seq::new(alloc);
    'kinds: for kind in kinds {
        all.push(kind.unwrap_or(EngineKind::ByTable))?;
    }
    Ok(all)
}

/// A script without faults for each of so many replicas.
fn no_faults(alloc: Global, replicas: usize) -> Result<Seq<Seq<Fault>>, AllocError>
    ensures { IfOk result (λ faults. faults ≡ replicate replicas []) }
{
    let mut faults = Seq::new(alloc);
    'replicas: for _replica in 0..replicas {
        faults.push(Seq::new(alloc))?;
    }
    Ok(faults)
}

/// `retries N`.
pub fn retries(said: &mut Said, number: Number) -> Result<(), LineError>
    ensures { Gives (spec.retries said.old number) said.new result }
{
    if let Some(kind) = retries_refusal(said, number) {
        return Err(LineError::Refused(kind));
    }
    said.part = 4;
    said.retries = small(number);
    Ok(())
}

fn retries_refusal(said: &Said, number: Number) -> Option<InputKind>
    ensures { result ≡ spec.retries_refusal said.now number }
{
    if !may_stand(said.part, 4) {
        return Some(InputKind::Form);
    }
    if !is_within(0, MAX_RETRIES, number) {
        return Some(InputKind::Limit);
    }
    None
}
