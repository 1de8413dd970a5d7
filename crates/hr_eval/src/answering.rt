//! The answer of a SELECT in the making. It takes memory for at most one row or group more than an answer may have, however
//! many rows or pairs are kept.
ghost use Rattle.std.specs.Prelude.{◌≡◌, true, [], ◌∷◌, ◌++◌, not, map, List, Ok, IfOk, OnOk, IsTrue};
ghost use Rattle.std.specs.List.{list_any};
ghost use Rattle.hr_base.specs.Lists.{is_empty};
ghost use Rattle.hr_rel.specs.declared.stmt.SelectStmt as stmt;
ghost use Rattle.hr_rel.specs.declared.answer.Answer.TheVariants as answers;
ghost use Rattle.hr_rel.specs.declared.answer.RunError.TheVariants as errors;
ghost use Rattle.hr_rel.specs.Fit.{is_plain, is_grouped};
ghost use Rattle.hr_meaning.specs.Truth as meaning;
ghost use Rattle.hr_meaning.specs.Value.{and_then, each};
ghost use Rattle.hr_meaning.specs.Select.{answer_from, shown};
ghost use Rattle.hr_eval.specs.Tuples.{rows_in};
ghost use Rattle.hr_eval.specs.Tallies.{tally_shown};
ghost use Rattle.hr_eval.specs.Answerings.{IsSoFar};

use crate::groups::Groups;
use crate::plain_rows::PlainRows;
use crate::tallies::{new_tallies, shown_row, step};
use crate::tally::Tally;
use crate::tuple::Tuple;
use hr_rel::{Answer, ColRef, Item, Row, SelectStmt, Seq};
use std::alloc::{AllocError, Global};

/// An answer in the making: of a SELECT without aggregate or GROUP BY, with GROUP BY, or with aggregates over all that is
/// kept. Each call takes the SELECT that it was made for.
#[derive(Drop)]
pub enum Answering {
    Plain(PlainRows),
    Grouped(Groups),
    Whole(Seq<Tally>),
}

impl Answering {
    /// Nothing is kept yet.
    pub fn new(alloc: Global, select: &SelectStmt) -> Result<Answering, AllocError>
        ensures { IfOk result (λ answering. IsSoFar select.now answering []) }
    {
        if is_grouped(select) {
            Answering::grouped(alloc, select)
        } else {
            Ok(Answering::Plain(PlainRows::new(alloc)))
        }
    }

    fn grouped(alloc: Global, select: &SelectStmt) -> Result<Answering, AllocError>
        requires { is_grouped select.now ≡ true }
        ensures { IfOk result (λ answering. IsSoFar select.now answering []) }
    {
        if no_groups(select.groups.as_slice()) {
            Ok(Answering::Whole(new_tallies(alloc, select.items.as_slice())?))
        } else {
            Ok(Answering::Grouped(Groups::new(alloc)))
        }
    }

    /// One more row or pair is kept. Where memory runs out, or a count or a sum passes what it may be, nothing is said of the
    /// answer any more.
    pub fn add(
        &mut self,
        alloc: Global,
        select: &SelectStmt,
        tuple: Tuple,
    ) -> Result<(), AllocError>
        requires { (kept : List meaning.Tuple) × IsSoFar select.now self.old kept }
        ensures { OnOk result ((kept : List meaning.Tuple) → IsSoFar select.now self.old kept → IsSoFar select.now self.new (kept ++ rows_in tuple.entry ∷ [])) }
    {
        let items = select.items.as_slice();
        match self {
            Answering::Plain(rows) => rows.add(alloc, items, tuple),
            Answering::Grouped(groups) => groups.add(alloc, select.groups.as_slice(), items, tuple),
            Answering::Whole(tallies) => step(tallies, alloc, items, tuple),
        }
    }

    /// Whether the answer is that there are too many rows, whatever comes.
    pub fn is_full(&self) -> bool
        ensures { (s : stmt.SelectStmt) (kept more : List meaning.Tuple) → IsSoFar s self.now kept → IsTrue result → answer_from s (kept ++ more) ≡ answers.Failed errors.TooManyRows }
    {
        match self {
            Answering::Plain(rows) => rows.is_full(),
            Answering::Grouped(groups) => groups.is_full(),
            Answering::Whole(_) => false,
        }
    }

    /// The answer over what was kept.
    pub fn answer(self, alloc: Global) -> Result<Answer, AllocError>
        ensures { (s : stmt.SelectStmt) (kept : List meaning.Tuple) → IsSoFar s self kept → IfOk result (λ answer. answer ≡ answer_from s kept) }
    {
        match self {
            Answering::Plain(rows) => Ok(rows.answer()),
            Answering::Grouped(groups) => groups.answer(alloc),
            Answering::Whole(tallies) => whole_answer(alloc, tallies.as_slice()),
        }
    }
}

// A SELECT groups where it has GROUP BY or an aggregate.
fn is_grouped(select: &SelectStmt) -> bool
    ensures { result ≡ is_grouped select.now }
{
    !no_groups(select.groups.as_slice()) || has_aggregate(select.items.as_slice())
}

fn no_groups(groups: &[ColRef]) -> bool
    ensures { result ≡ is_empty groups.now }
{
    matches!(groups, [])
}

fn has_aggregate(items: &[Item]) -> bool
    ensures { result ≡ list_any (λ i. not (is_plain i)) items.now }
{
    items.iter().any(|item| !is_plain(item))
}

fn is_plain(item: &Item) -> bool
    ensures { result ≡ is_plain item.now }
{
    matches!(item, Item::Plain(_))
}

// The one row over all that was kept, or its first Overflow.
fn whole_answer(alloc: Global, tallies: &[Tally]) -> Result<Answer, AllocError>
    ensures { IfOk result (λ answer. answer ≡ shown (and_then (each tally_shown tallies.now) (λ row. Ok (row ∷ [])))) }
{
    match shown_row(alloc, tallies)? {
        Ok(row) => Ok(Answer::Rows(only(alloc, row)?)),
        Err(error) => Ok(Answer::Failed(error)),
    }
}

fn only(alloc: Global, row: Row) -> Result<Seq<Row>, AllocError>
    ensures { IfOk result (λ rows. rows ≡ row ∷ []) }
{
    let mut rows = Seq::new(alloc);
    rows.push(row)?;
    Ok(rows)
}
