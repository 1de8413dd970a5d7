//! The answer of a SELECT with GROUP BY, in the making: the groups of the rows or pairs that are kept, in the order of their
//! values, each with its tallies. NULL is a value like any other here.
ghost use Rattle.std.specs.Prelude.{◌≡◌, true, false, [], ◌∷◌, ◌++◌, ◌<◌, ◌≤◌, nat_lt, length, map, List, slice_get, IfOk, OnOk};
ghost use Rattle.std.specs.List.{AllWithin};
ghost use Rattle.std.specs.Ordering.{is_eq, is_gt};
ghost use Rattle.hr_base.specs.declared.limits.TheConstants.{MAX_ROWS};
ghost use Rattle.hr_meaning.specs.Truth as meaning;
ghost use Rattle.hr_meaning.specs.Order.{value_cmp, row_cmp};
ghost use Rattle.hr_meaning.specs.Value.{each};
ghost use Rattle.hr_meaning.specs.Select.{group_of, group_row, groups_of, few};
ghost use Rattle.hr_eval.specs.Tuples.{rows_in};
ghost use Rattle.hr_eval.specs.Groups.{keys_of, IsGrouped, group_step, new_group, put_tuple, is_over, is_at, is_ascending, group_shown};

use crate::tallies::{new_tallies, shown_row, step};
use crate::tally::Tally;
use crate::tuple::{Tuple, column_value};
use hr_base::limits::MAX_ROWS;
use hr_rel::{Answer, ColRef, Item, Row, RunError, Seq, Table, Value};
use std::alloc::{AllocError, Global};
use std::cmp::Ordering;

/// A group: its values, and what is kept for each item.
pub struct Group {
    key: Row,
    tallies: Seq<Tally>,
}

impl Drop for Group {
    fn drop(self) {
        let Group {
            key: _key,
            tallies: _tallies,
        } = self;
    }
}

/// The groups so far, at most one more than an answer may have rows: then they are too many, whatever comes.
pub struct Groups {
    groups: Vec<Group>,
}

impl Drop for Groups {
    fn drop(self) {
        let Groups { groups: _groups } = self;
    }
}

impl Group {
    // A group of one row or pair.
    fn new(alloc: Global, key: Row, items: &[Item], tuple: Tuple) -> Result<Group, AllocError>
        ensures { IfOk result (λ group. group ≡ new_group items.now (rows_in tuple.entry) key) }
    {
        let mut tallies = new_tallies(alloc, items)?;
        step(&mut tallies, alloc, items, tuple)?;
        Ok(Group { key, tallies })
    }

    // One row or pair more. Where memory runs out, nothing is said of it.
    fn add(&mut self, alloc: Global, items: &[Item], tuple: Tuple) -> Result<(), AllocError>
        ensures { OnOk result (self.new ≡ group_step items.now (rows_in tuple.entry) self.old) }
    {
        step(&mut self.tallies, alloc, items, tuple)
    }
}

impl Groups {
    /// No groups yet; takes no memory.
    pub fn new(alloc: Global) -> Groups
        ensures { (columns : _) (items : _) → IsGrouped columns items result [] }
    {
        Groups {
            groups: Vec::new(alloc),
        }
    }

    /// One more row or pair is kept. Where memory runs out, nothing is said of the groups.
    pub fn add(
        &mut self,
        alloc: Global,
        columns: &[ColRef],
        items: &[Item],
        tuple: Tuple,
    ) -> Result<(), AllocError>
        requires { (kept : List meaning.Tuple) × IsGrouped columns.now items.now self.old kept }
        ensures { OnOk result ((kept : List meaning.Tuple) → IsGrouped columns.now items.now self.old kept → IsGrouped columns.now items.now self.new (kept ++ rows_in tuple.entry ∷ [])) }
    {
        if self.groups.len() > MAX_ROWS {
            return Ok(());
        }
        put(alloc, &mut self.groups, columns, items, tuple)
    }

    /// Whether the groups are too many, whatever comes.
    #[tactic(auto, using(crate::proofs::GroupLaws::full_as_grouped))]
    pub fn is_full(&self) -> bool
        ensures { (columns : _) (items : _) (kept : List meaning.Tuple) → IsGrouped columns items self.now kept → result ≡ nat_lt MAX_ROWS (length (groups_of columns kept)) }
    {
        self.groups.len() > MAX_ROWS
    }

    /// The answer over what was kept.
    pub fn answer(self, alloc: Global) -> Result<Answer, AllocError>
        ensures { (columns : _) (items : _) (kept : List meaning.Tuple) → IsGrouped columns items self kept → IfOk result (λ answer. answer ≡ few (group_row items) (groups_of columns kept)) }
    {
        answer_of(alloc, &self.groups)
    }
}

fn answer_of(alloc: Global, groups: &[Group]) -> Result<Answer, AllocError>
    ensures { IfOk result (λ answer. answer ≡ few group_shown groups.now) }
{
    if groups.len() > MAX_ROWS {
        return Ok(Answer::Failed(RunError::TooManyRows));
    }
    match shown_groups(alloc, groups)? {
        Ok(rows) => Ok(Answer::Rows(rows)),
        Err(error) => Ok(Answer::Failed(error)),
    }
}

// A row of each group, or the first Overflow.
fn shown_groups(alloc: Global, groups: &[Group]) -> Result<Result<Table, RunError>, AllocError>
    ensures { IfOk result (λ outcome. outcome ≡ each group_shown groups.now) }
{
    let mut rows = Seq::new(alloc);
    'groups: for group in groups {
        match shown_row(alloc, group.tallies.as_slice())? {
            Ok(row) => rows.push(row)?,
            Err(error) => return Ok(Err(error)),
        }
    }
    Ok(Ok(rows))
}

// Puts one row or pair more into its group, or a new group at its place.
fn put(
    alloc: Global,
    groups: &mut Vec<Group>,
    columns: &[ColRef],
    items: &[Item],
    tuple: Tuple,
) -> Result<(), AllocError>
    requires { is_ascending groups.old.items ≡ true }
    ensures { OnOk result (groups.new.items ≡ put_tuple items.now (rows_in tuple.entry) (group_of columns.now (rows_in tuple.entry)) groups.old.items) }
{
    let at = place(groups, columns, tuple);
    if is_at(groups, at, columns, tuple) {
        groups[at].add(alloc, items, tuple)
    } else {
        let group = Group::new(alloc, group_of(alloc, columns, tuple)?, items, tuple)?;
        groups.insert(at, group)?;
        Ok(())
    }
}

// The place of the first group that isn't less; takes no memory.
fn place(groups: &[Group], columns: &[ColRef], tuple: Tuple) -> usize
    requires { is_ascending groups.now ≡ true }
    ensures within { result ≤ length groups.now }
    ensures before { AllWithin (λ g. is_over (group_of columns.now (rows_in tuple.entry)) g ≡ true) groups.now 0 result }
    ensures behind { AllWithin (λ g. is_over (group_of columns.now (rows_in tuple.entry)) g ≡ false) groups.now result (length groups.now) }
{
    groups.partition_point(
        |group: &Group| -> bool
            ensures { result ≡ is_over (group_of columns.entry.now (rows_in tuple.entry)) group.now }
        { compare(tuple, columns, group.key.as_slice()).is_gt() },
    )
}

// Whether the group at a place is that of the row or pair.
fn is_at(groups: &[Group], at: usize, columns: &[ColRef], tuple: Tuple) -> bool
    ensures { result ≡ is_at groups.now at (group_of columns.now (rows_in tuple.entry)) }
{
    match groups.get(at) {
        Some(group) => compare(tuple, columns, group.key.as_slice()).is_eq(),
        None => false,
    }
}

// The values of a row or pair by which it is grouped.
fn group_of(alloc: Global, columns: &[ColRef], tuple: Tuple) -> Result<Row, AllocError>
    ensures { IfOk result (λ key. key ≡ group_of columns.now (rows_in tuple.entry)) }
{
    let mut key = Seq::new(alloc);
    'columns: for column in columns {
        key.push(column_value(tuple, *column))?;
    }
    Ok(key)
}

// How they compare with those of a group; takes no memory.
fn compare(tuple: Tuple, columns: &[ColRef], key: &[Value]) -> Ordering
    ensures { result ≡ row_cmp (group_of columns.now (rows_in tuple.entry)) key.now }
{
    match columns {
        [] => if key.is_empty() {
            Ordering::Equal
        } else {
            Ordering::Less
        },
        [column, columns @ ..] => match key {
            [] => Ordering::Greater,
            [value, key @ ..] => match compare_values(&column_value(tuple, *column), value) {
                Ordering::Equal => compare(tuple, columns, key),
                order => order,
            },
        },
    }
}

#[tactic(auto, using(hr_answer::proofs::ValueOrder::derived_cmp))]
fn compare_values(a: &Value, b: &Value) -> Ordering
    ensures { result ≡ value_cmp a.now b.now }
{
    a.cmp(b)
}
