//! The tallies of one group of rows, one for each item of the SELECT.
ghost use Rattle.std.specs.Prelude.{◌≡◌, [], IfOk, OnOk, map, length};
ghost use Rattle.hr_meaning.specs.Value.{each};
ghost use Rattle.hr_eval.specs.Tuples.{rows_in};
ghost use Rattle.hr_eval.specs.Tallies.{tally_of, tally_shown};
ghost use Rattle.hr_eval.specs.Groups.{steps};

use crate::tally::{Tally, tallied};
use crate::tuple::Tuple;
use hr_rel::{Item, Row, RunError, Seq};
use std::alloc::{AllocError, Global};
use std::mem;

/// The items' tallies over no rows.
pub fn new_tallies(alloc: Global, items: &[Item]) -> Result<Seq<Tally>, AllocError>
    ensures { IfOk result (λ tallies. tallies ≡ map (tally_of []) items.now) }
{
    // No tally is moved into a `Vec` here: of such a move, of an enum with enums within it, nothing can be proved today.
    let mut tallies = Vec::new(alloc);
    tallies.resize_with(items.len(), || Tally::Count(0))?;
    start_all(&mut tallies, items);
    Ok(Seq::from_vec(tallies))
}

fn start_all(tallies: &mut [Tally], items: &[Item])
    requires { length tallies.old ≡ length items.now }
    ensures { tallies.new ≡ map (tally_of []) items.now }
{
    let mut at = 0;
    'tallies: while at < items.len() {
        tallies[at] = Tally::new(&items[at]);
        at += 1;
    }
}

/// One row or pair more. Where memory runs out, nothing is said of the tallies.
pub fn step(
    tallies: &mut Seq<Tally>,
    alloc: Global,
    items: &[Item],
    tuple: Tuple,
) -> Result<(), AllocError>
    ensures { OnOk result (tallies.new ≡ steps (rows_in tuple.entry) items.now tallies.old) }
{
    let mut next = mem::replace(tallies, Seq::new(alloc)).into_vec();
    step_all(&mut next, items, tuple)?;
    *tallies = Seq::from_vec(next);
    Ok(())
}

// The same of a slice; takes no memory.
fn step_all(tallies: &mut [Tally], items: &[Item], tuple: Tuple) -> Result<(), AllocError>
    ensures { OnOk result (tallies.new ≡ steps (rows_in tuple.entry) items.now tallies.old) }
{
    let mut at = 0;
    'tallies: while at < tallies.len() && at < items.len() {
        let next = tallied(&tallies[at], &items[at], tuple)?;
        tallies[at] = next;
        at += 1;
    }
    Ok(())
}

/// What the tallies show, from the left, or the first Overflow.
pub fn shown_row(alloc: Global, tallies: &[Tally]) -> Result<Result<Row, RunError>, AllocError>
    ensures { IfOk result (λ outcome. outcome ≡ each tally_shown tallies.now) }
{
    let mut row = Seq::new(alloc);
    'tallies: for tally in tallies {
        match tally.shown() {
            Ok(value) => row.push(value)?,
            Err(error) => return Ok(Err(error)),
        }
    }
    Ok(Ok(row))
}
