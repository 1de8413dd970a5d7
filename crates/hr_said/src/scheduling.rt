//! The lines of a schedule.

ghost use Rattle.std.specs.Prelude.{◌≡◌, ◌+◌, ◌++◌, sum, map, OnOk};
ghost use Rattle.std.specs.List.{list_any};
ghost use Rattle.hr_base.specs.Counters.{shown};
ghost use Rattle.hr_said.specs.Schedule as spec;
ghost use Rattle.hr_said.specs.Outcomes.{Gives};

use crate::error::{InputKind, LineError};
use crate::limits::{MAX_CHOICES, is_within, may_stand, small, value};
use crate::said::{Inside, Said};
use crate::scenario::Choice;
use hr_forms::{ChoiceForm, ScheduleForm, schedule_form_of};
use hr_rel::Seq;
use std::alloc::{AllocError, Global};

/// `schedule`.
pub fn schedule(said: &mut Said) -> Result<(), LineError>
    ensures { Gives (spec.schedule said.old) said.new result }
{
    if !may_stand(said.part, 8) {
        return Err(LineError::Refused(InputKind::Form));
    }
    said.part = 8;
    said.inside = Inside::Schedule;
    Ok(())
}

/// A line of a schedule.
pub fn schedule_line(alloc: Global, said: &mut Said, line: &[u8]) -> Result<(), LineError>
    ensures { Gives (spec.schedule_line said.old line.now) said.new result }
{
    match schedule_form_of(alloc, line)? {
        Some(ScheduleForm::End) => {
            said.inside = Inside::Outside;
            Ok(())
        }
        Some(ScheduleForm::Choices(forms)) => choices(said, forms.as_slice()),
        None => Err(LineError::Refused(InputKind::Form)),
    }
}

fn choices(said: &mut Said, forms: &[ChoiceForm]) -> Result<(), LineError>
    ensures { Gives (spec.choices said.old forms.now) said.new result }
{
    let callers = callers(said);
    let count = count_with(said.choice_count, callers, forms);
    if let Some(kind) = choices_refusal(said, count, forms) {
        return Err(LineError::Refused(kind));
    }
    said.choice_count = count;
    add_choices(&mut said.choices, forms)?;
    Ok(())
}

/// How many sessions and replicas there are: each of them has a choice in a round.
fn callers(said: &Said) -> u64
    ensures { result ≡ shown (spec.callers said.now) }
{
    (said.scripts.len() as u64).saturating_add(said.faults.len() as u64)
}

/// How many choices there are with these, where rounds are written out; it stands still at its last number.
fn count_with(before: u64, callers: u64, forms: &[ChoiceForm]) -> u64
    ensures { result ≡ shown (before + sum (map (λ c. spec.weight callers c) forms.now)) }
{
    let mut count = before;
    'forms: for form in forms {
        count = count.saturating_add(weight(callers, form));
    }
    count
}

fn weight(callers: u64, form: &ChoiceForm) -> u64
    ensures { result ≡ shown (spec.weight callers form.now) }
{
    match form {
        ChoiceForm::Rounds(number) => value(*number).saturating_mul(callers),
        _ => 1,
    }
}

fn choices_refusal(said: &Said, count: u64, forms: &[ChoiceForm]) -> Option<InputKind>
    ensures { result ≡ spec.choices_refusal said.now count forms.now }
{
    if any_bad_rounds(forms) || count > MAX_CHOICES {
        return Some(InputKind::Limit);
    }
    if any_unknown(said, forms) {
        return Some(InputKind::Unknown);
    }
    None
}

fn any_bad_rounds(forms: &[ChoiceForm]) -> bool
    ensures { result ≡ list_any spec.is_bad_rounds forms.now }
{
    forms.iter().any(|form| is_bad_rounds(form))
}

fn is_bad_rounds(form: &ChoiceForm) -> bool
    ensures { result ≡ spec.is_bad_rounds form.now }
{
    match form {
        ChoiceForm::Rounds(number) => !is_within(1, u64::from(u32::MAX), *number),
        _ => false,
    }
}

fn any_unknown(said: &Said, forms: &[ChoiceForm]) -> bool
    ensures { result ≡ list_any (λ c. spec.is_unknown said.now c) forms.now }
{
    forms.iter().any(|form| is_unknown(said, form))
}

fn is_unknown(said: &Said, form: &ChoiceForm) -> bool
    ensures { result ≡ spec.is_unknown said.now form.now }
{
    match form {
        ChoiceForm::Session(number) => !is_within(1, said.scripts.len() as u64, *number),
        ChoiceForm::Both(number) | ChoiceForm::TakeJob(number) | ChoiceForm::GiveReply(number) =>
            value(*number) >= said.faults.len() as u64,
        ChoiceForm::Rounds(_) => false,
    }
}

fn add_choices(choices: &mut Seq<Choice>, forms: &[ChoiceForm]) -> Result<(), AllocError>
    ensures { OnOk result (choices.new ≡ choices.old ++ map spec.choice_of forms.now) }
{
    'forms: for form in forms {
        choices.push(choice_of(form))?;
    }
    Ok(())
}

fn choice_of(form: &ChoiceForm) -> Choice
    ensures { result ≡ spec.choice_of form.now }
{
    match form {
        ChoiceForm::Session(number) => Choice::Session(small(*number)),
        ChoiceForm::Both(number) => Choice::Both(small(*number)),
        ChoiceForm::TakeJob(number) => Choice::TakeJob(small(*number)),
        ChoiceForm::GiveReply(number) => Choice::GiveReply(small(*number)),
        ChoiceForm::Rounds(number) => Choice::Rounds(small(*number)),
    }
}
