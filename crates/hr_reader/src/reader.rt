//! A whole text.

ghost use Rattle.std.specs.Prelude.{◌≡◌, ◌<◌, ◌^◌, length};
ghost use Rattle.hr_said.specs.Said.{nothing};
ghost use Rattle.hr_reader.specs.Reading as spec;

use crate::error::{InputError, ReadError};
use crate::line::line_says;
use hr_base::limits::MAX_SCENARIO_BYTES;
use hr_lines::Lines;
use hr_said::{InputKind, Inside, LineError, Said, Scenario};
use std::alloc::Global;

/// Reads a text: exactly the scenario that it is, or the first of its lines that is refused, with the kind that is told of it.
#[tactic(auto, using(crate::proofs::Few::few_lines))]
pub fn read(alloc: Global, text: &[u8]) -> Result<Scenario, ReadError>
    ensures { spec.IsRead (spec.scenario_of text.now) result }
{
    if text.len() > MAX_SCENARIO_BYTES {
        return Err(refused(0, InputKind::TooLong));
    }
    read_lines(alloc, Lines::of(text))
}

fn refused(line: u32, kind: InputKind) -> ReadError
    ensures { result ≡ ReadError.Refused (spec.at_line line kind) }
{
    ReadError::Refused(InputError { line, kind })
}

#[tactic(auto, using(crate::proofs::Loop::read_next, crate::proofs::Loop::read_bad, crate::proofs::Loop::read_end, crate::proofs::Loop::one_fewer))]
fn read_lines(alloc: Global, lines: Lines<'_>) -> Result<Scenario, ReadError>
    requires { length lines < 2 ^ 31 }
    ensures { spec.IsRead (spec.read_lines nothing 0 lines.entry) result }
{
    let mut rest = lines;
    let mut said = Said::nothing(alloc);
    let mut ordered = true;
    let mut number = 0;
    'lines: while let Some(line) = rest.next() {
        number += 1;
        match line_says(alloc, &mut said, ordered, line) {
            Ok(known) => ordered = known,
            Err(LineError::Refused(kind)) => return Err(refused(number, kind)),
            Err(LineError::NoMemory) => return Err(ReadError::NoMemory),
        }
    }
    whole(said, number)
}

/// The scenario, once all lines are read, of which this is the last one's number.
fn whole(said: Said, number: u32) -> Result<Scenario, ReadError>
    requires { number < 2 ^ 31 }
    ensures { result ≡ spec.told (spec.whole said number) }
{
    if said.part < 3 || !is_outside(said.inside) {
        return Err(refused(number + 1, InputKind::Unended));
    }
    Ok(said.into_scenario())
}

fn is_outside(inside: Inside) -> bool
    ensures { result ≡ spec.is_outside inside }
{
    match inside {
        Inside::Outside => true,
        Inside::Session | Inside::Schedule => false,
    }
}
