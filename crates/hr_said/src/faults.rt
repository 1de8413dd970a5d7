//! The lines of faults and suspicions.

ghost use Rattle.std.specs.Prelude.{◌≡◌, ◌<◌, None, [], length, map, slice_set, IfOk, OnOk};
ghost use Rattle.std.specs.List.{list_any};
ghost use Rattle.hr_base.specs.Lists.{last_of};
ghost use Rattle.hr_said.specs.Faults as spec;
ghost use Rattle.hr_said.specs.Limits as limits;
ghost use Rattle.hr_said.specs.Outcomes.{Gives};

use crate::error::{InputKind, LineError};
use crate::limits::{
    MAX_CALL, MAX_FAULT_LIST, MAX_FAULTS, MAX_SUSPECTS, is_within, may_stand, value,
};
use crate::said::Said;
use hr_faulty::{Act, Fault, When};
use hr_forms::ActForm;
use hr_line::{Number, Signed};
use hr_rel::Seq;
use std::alloc::{AllocError, Global};
use std::mem;

/// `lie R CALL ACT`, `lose R CALL before` and `lose R CALL after`.
pub fn fault(
    alloc: Global,
    said: &mut Said,
    replica: Number,
    call: Number,
    act: &ActForm,
) -> Result<(), LineError>
    ensures { Gives (spec.fault said.old replica call act.now) said.new result }
{
    if let Some(kind) = fault_refusal(said, replica, call, act) {
        return Err(LineError::Refused(kind));
    }
    let act = act_of(alloc, act)?;
    let call = value(call);
    said.part = 6;
    said.fault_count += 1;
    add_fault(
        alloc,
        &mut said.faults,
        value(replica) as usize,
        Fault { call, act },
    )?;
    Ok(())
}

fn fault_refusal(said: &Said, replica: Number, call: Number, act: &ActForm) -> Option<InputKind>
    ensures first { result ≡ spec.fault_refusal said.now replica call act.now }
    ensures few { result ≡ None → said.now.fault_count < MAX_FAULTS }
{
    if !may_stand(said.part, 6) {
        return Some(InputKind::Form);
    }
    if !is_within(1, MAX_CALL, call) || !is_act(act) || said.fault_count >= MAX_FAULTS {
        return Some(InputKind::Limit);
    }
    if !is_replica(said, replica) {
        return Some(InputKind::Unknown);
    }
    if names_call(faults_at(&said.faults, value(replica)), value(call)) {
        return Some(InputKind::Repeated);
    }
    None
}

/// Whether there is a replica of this number.
pub fn is_replica(said: &Said, replica: Number) -> bool
    ensures { result ≡ spec.is_replica said.now replica }
{
    value(replica) < said.faults.len() as u64
}

fn faults_at(faults: &Seq<Seq<Fault>>, replica: u64) -> &[Fault]
    ensures { result.now ≡ spec.faults_at faults.now replica }
{
    match faults.as_slice().get(replica as usize) {
        Some(faults) => faults.as_slice(),
        None => &[],
    }
}

fn names_call(faults: &[Fault], call: u64) -> bool
    ensures { result ≡ list_any (λ f. spec.is_at call f) faults.now }
{
    faults.iter().any(|fault| is_at(call, fault))
}

fn is_at(call: u64, fault: &Fault) -> bool
    ensures { result ≡ spec.is_at call fault.now }
{
    fault.call == call
}

/// Whether an act's numbers are within their limits.
fn is_act(act: &ActForm) -> bool
    ensures { result ≡ spec.is_act act.now }
{
    match act {
        ActForm::Wrong(number) => !is_signed_too_large(*number),
        ActForm::Drop(number) | ActForm::Position(number) => !is_too_large(*number),
        ActForm::Block(txns) | ActForm::Deadlock(txns) => is_list(txns.as_slice()),
        ActForm::Early | ActForm::Fail | ActForm::LoseBefore | ActForm::LoseAfter => true,
    }
}

fn is_signed_too_large(number: Signed) -> bool
    ensures { result ≡ spec.is_signed_too_large number }
{
    match number {
        Signed::Of(_) => false,
        Signed::TooLarge => true,
    }
}

fn is_too_large(number: Number) -> bool
    ensures { result ≡ spec.is_too_large number }
{
    match number {
        Number::Of(_) => false,
        Number::TooLarge => true,
    }
}

fn is_list(txns: &[Number]) -> bool
    ensures { result ≡ spec.is_list txns.now }
{
    txns.len() <= MAX_FAULT_LIST && !any_too_large(txns)
}

fn any_too_large(txns: &[Number]) -> bool
    ensures { result ≡ list_any spec.is_too_large txns.now }
{
    txns.iter().any(|txn| is_too_large(*txn))
}

/// The act that a line means.
fn act_of(alloc: Global, act: &ActForm) -> Result<Act, AllocError>
    ensures { IfOk result (λ made. made ≡ spec.act_of act.now) }
{
    match act {
        ActForm::Wrong(number) => Ok(Act::Wrong(signed_value(*number))),
        ActForm::Drop(number) => Ok(Act::Drop(value(*number))),
        ActForm::Early => Ok(Act::Early),
        ActForm::Block(txns) => Ok(Act::Block(values(alloc, txns.as_slice())?)),
        ActForm::Deadlock(txns) => Ok(Act::Deadlock(values(alloc, txns.as_slice())?)),
        ActForm::Fail => Ok(Act::Fail),
        ActForm::Position(number) => Ok(Act::Position(value(*number))),
        ActForm::LoseBefore => Ok(Act::Lose(When::Before)),
        ActForm::LoseAfter => Ok(Act::Lose(When::After)),
    }
}

fn signed_value(number: Signed) -> i64
    ensures { result ≡ spec.signed_value number }
{
    match number {
        Signed::Of(n) => n,
        Signed::TooLarge => 0,
    }
}

fn values(alloc: Global, numbers: &[Number]) -> Result<Seq<u64>, AllocError>
    ensures { IfOk result (λ all. all ≡ map limits.value numbers.now) }
{
    let mut all = Seq::new(alloc);
    'numbers: for number in numbers {
        all.push(value(*number))?;
    }
    Ok(all)
}

#[tactic(auto, using(crate::proofs::SetLemmas::set_again))]
fn add_fault(
    alloc: Global,
    faults: &mut Seq<Seq<Fault>>,
    replica: usize,
    fault: Fault,
) -> Result<(), AllocError>
    ensures { OnOk result (faults.new ≡ spec.with_fault faults.old replica fault) }
{
    if replica >= faults.len() {
        return Ok(());
    }
    let mut script = take_script(alloc, faults, replica);
    script.push(fault)?;
    faults.set(replica, script);
    Ok(())
}

/// Takes the faults of a replica out, which is left without any; takes no memory.
fn take_script(alloc: Global, faults: &mut Seq<Seq<Fault>>, replica: usize) -> Seq<Fault>
    requires { replica < length faults.old }
    ensures script { result ≡ spec.faults_at faults.old replica }
    ensures left { faults.new ≡ slice_set faults.old replica [] }
{
    let mut all = mem::replace(faults, Seq::new(alloc)).into_vec();
    let script = mem::replace(&mut all[replica], Seq::new(alloc));
    *faults = Seq::from_vec(all);
    script
}

/// `suspect after N`.
pub fn suspect(said: &mut Said, after: Number) -> Result<(), LineError>
    ensures { Gives (spec.suspect said.old after) said.new result }
{
    if let Some(kind) = suspect_refusal(said, after) {
        return Err(LineError::Refused(kind));
    }
    said.part = 6;
    said.suspects.push(value(after))?;
    Ok(())
}

fn suspect_refusal(said: &Said, after: Number) -> Option<InputKind>
    ensures { result ≡ spec.suspect_refusal said.now after }
{
    if !may_stand(said.part, 6) {
        return Some(InputKind::Form);
    }
    if !is_within(1, MAX_CALL, after)
        || falls(said.suspects.as_slice(), value(after))
        || said.suspects.len() >= MAX_SUSPECTS
    {
        return Some(InputKind::Limit);
    }
    None
}

/// Whether a number is less than the last of those before it.
fn falls(before: &[u64], number: u64) -> bool
    ensures { result ≡ spec.falls (last_of before.now) number }
{
    match before {
        [] => false,
        [last] => number < *last,
        [_, others @ ..] => falls(others, number),
    }
}
