//! What one item more tells.
ghost use Rattle.std.specs.Prelude.{◌≡◌, ◌-◌, slice_get, slice_set, unwrap_or, option_copied, IfOk, OnOk};
ghost use Rattle.hr_report_reader.specs.Told as spec;

use crate::form::{CommitLine, Form, TableLine};
use crate::item::Item;
use crate::told::{Place, Told};
use hr_rel::{Answer, Name, Seq, TableDef};
use hr_said::Scenario;
use hr_told::{ToldCommit, block_of};
use std::alloc::{AllocError, Global};
use std::mem;

/// Takes an item that may stand there, and says whether it may.
#[tactic(auto, unfolding(crate::specs::Told::next))]
pub fn take(
    alloc: Global,
    scenario: &Scenario,
    told: &mut Told,
    item: Item,
) -> Result<bool, AllocError>
    ensures { IfOk result (λ goes. spec.Goes (spec.next scenario.now told.old item) goes told.new) }
{
    match item {
        Item::Line(form) => line(alloc, scenario, told, &form),
        Item::Answer { number, answer } => answer_at(alloc, told, number, answer),
        Item::Given(_) => Ok(given(told)),
        Item::Agreed(_) => Ok(agreed(told)),
        Item::Row => Ok(row(told)),
    }
}

fn line(
    alloc: Global,
    scenario: &Scenario,
    told: &mut Told,
    form: &Form,
) -> Result<bool, AllocError>
    ensures { IfOk result (λ goes. spec.Goes (spec.line_at scenario.now told.old form.now told.old.place) goes told.new) }
{
    match told.place {
        Place::Start => Ok(at_start(told, form)),
        Place::Count => Ok(at_count(told, form)),
        Place::Commits => at_commits(alloc, scenario, told, form),
        Place::Tries => Ok(at_tries(scenario, told, form)),
        Place::Convictions => Ok(at_convictions(scenario, told, form)),
        Place::Tables => Ok(at_tables(scenario, told, form)),
        Place::Answers | Place::Given | Place::Agreed | Place::Rows | Place::End => Ok(false),
    }
}

fn at_start(told: &mut Told, form: &Form) -> bool
    ensures { spec.Goes (spec.at_start told.old form.now) result told.new }
{
    match form {
        Form::Report => {
            told.place = Place::Count;
            true
        }
        _ => false,
    }
}

fn at_count(told: &mut Told, form: &Form) -> bool
    ensures { spec.Goes (spec.at_count told.old form.now) result told.new }
{
    match form {
        Form::Commits(count) => {
            told.place = Place::Commits;
            told.count = *count;
            true
        }
        _ => false,
    }
}

// ---- commits

fn at_commits(
    alloc: Global,
    scenario: &Scenario,
    told: &mut Told,
    form: &Form,
) -> Result<bool, AllocError>
    ensures { IfOk result (λ goes. spec.Goes (spec.at_commits scenario.now told.old form.now) goes told.new) }
{
    if let Form::Commit(line) = form {
        return commit(alloc, scenario, told, *line);
    }
    if told.commits.len() as u64 == told.count {
        Ok(behind_commits(scenario, told, form))
    } else {
        Ok(false)
    }
}

fn commit(
    alloc: Global,
    scenario: &Scenario,
    told: &mut Told,
    line: CommitLine,
) -> Result<bool, AllocError>
    ensures { IfOk result (λ goes. spec.Goes (spec.commit scenario.now told.old line) goes told.new) }
{
    if !may_commit(told, line) {
        return Ok(false);
    }
    let Some(stmts) = block_of(scenario, line.session, line.block) else {
        return Ok(false);
    };
    begin(alloc, told, line, stmts.len() as u64)?;
    Ok(true)
}

fn may_commit(told: &Told, line: CommitLine) -> bool
    ensures { result ≡ spec.may_commit told.now line }
{
    let before = told.commits.len() as u64;
    before < told.count && line.place == before + 1 && last_block(told, line.session) < line.block
}

fn last_block(told: &Told, session: u32) -> u32
    ensures { result ≡ spec.last_block told.now session }
{
    block_at(told.blocks.as_slice(), session.saturating_sub(1))
}

fn block_at(blocks: &[u32], at: u32) -> u32
    ensures { result ≡ unwrap_or (slice_get blocks.now at) 0 }
{
    match blocks.get(at as usize) {
        Some(block) => *block,
        None => 0,
    }
}

fn begin(alloc: Global, told: &mut Told, line: CommitLine, due: u64) -> Result<(), AllocError>
    ensures { OnOk result (told.new ≡ spec.begun told.old line due) }
{
    set_block(&mut told.blocks, line.session.saturating_sub(1), line.block);
    told.line = line;
    told.answers = Seq::new(alloc);
    told.due = due;
    end_commit(alloc, told)
}

#[tactic(auto, using(crate::proofs::Blocks::set_past))]
fn set_block(blocks: &mut Seq<u32>, at: u32, block: u32)
    ensures { blocks.new ≡ slice_set blocks.old at block }
{
    if (at as usize) < blocks.len() {
        blocks.set(at as usize, block);
    }
}

/// Ends the commit that is being told, where it has all its answers.
fn end_commit(alloc: Global, told: &mut Told) -> Result<(), AllocError>
    ensures { OnOk result (told.new ≡ spec.ended told.old) }
{
    if told.answers.len() as u64 != told.due {
        told.place = Place::Answers;
        return Ok(());
    }
    let answers = mem::replace(&mut told.answers, Seq::new(alloc));
    told.place = Place::Commits;
    told.commits.push(commit_with(told.line, answers))
}

fn commit_with(line: CommitLine, answers: Seq<Answer>) -> ToldCommit
    ensures { result ≡ spec.commit_with line answers }
{
    ToldCommit {
        session: line.session,
        block: line.block,
        txn: line.txn,
        answers,
    }
}

fn answer_at(
    alloc: Global,
    told: &mut Told,
    number: u64,
    answer: Answer,
) -> Result<bool, AllocError>
    ensures { IfOk result (λ goes. spec.Goes (spec.answer_at told.old number answer told.old.place) goes told.new) }
{
    match told.place {
        Place::Answers => add_answer(alloc, told, number, answer),
        _ => Ok(false),
    }
}

fn add_answer(
    alloc: Global,
    told: &mut Told,
    number: u64,
    answer: Answer,
) -> Result<bool, AllocError>
    ensures { IfOk result (λ goes. spec.Goes (spec.answer told.old number answer) goes told.new) }
{
    if !is_next(told, number) {
        return Ok(false);
    }
    told.answers.push(answer)?;
    end_commit(alloc, told)?;
    Ok(true)
}

fn is_next(told: &Told, number: u64) -> bool
    ensures { result ≡ spec.is_next told.now number }
{
    number > 0 && number - 1 == told.answers.len() as u64
}

// ---- sessions, convictions and replicas

fn behind_commits(scenario: &Scenario, told: &mut Told, form: &Form) -> bool
    ensures { spec.Goes (spec.behind_commits scenario.now told.old form.now) result told.new }
{
    match form {
        Form::Session(number) => session(scenario, told, *number),
        Form::Convicted => conviction(scenario, told),
        Form::Replica(number) => first_replica(scenario, told, *number),
        _ => false,
    }
}

fn at_tries(scenario: &Scenario, told: &mut Told, form: &Form) -> bool
    ensures { spec.Goes (spec.at_tries scenario.now told.old form.now) result told.new }
{
    if let Form::Try(differs) = form {
        told.place = if *differs { Place::Given } else { Place::Tries };
        return true;
    }
    behind_commits(scenario, told, form)
}

fn given(told: &mut Told) -> bool
    ensures { spec.Goes (spec.given_at told.old told.old.place) result told.new }
{
    match told.place {
        Place::Given => {
            told.place = Place::Agreed;
            true
        }
        _ => false,
    }
}

fn agreed(told: &mut Told) -> bool
    ensures { spec.Goes (spec.agreed_at told.old told.old.place) result told.new }
{
    match told.place {
        Place::Agreed => {
            told.place = Place::Tries;
            true
        }
        _ => false,
    }
}

fn session(scenario: &Scenario, told: &mut Told, number: u64) -> bool
    ensures { spec.Goes (spec.session scenario.now told.old number) result told.new }
{
    if told.sessions < scenario.scripts.len() as u64 && number == told.sessions + 1 {
        told.place = Place::Tries;
        told.sessions = number;
        true
    } else {
        false
    }
}

fn conviction(scenario: &Scenario, told: &mut Told) -> bool
    ensures { spec.Goes (spec.conviction scenario.now told.old) result told.new }
{
    if told.sessions == scenario.scripts.len() as u64 {
        told.place = Place::Convictions;
        true
    } else {
        false
    }
}

fn at_convictions(scenario: &Scenario, told: &mut Told, form: &Form) -> bool
    ensures { spec.Goes (spec.at_convictions scenario.now told.old form.now) result told.new }
{
    match form {
        Form::Convicted => true,
        Form::Replica(number) => first_replica(scenario, told, *number),
        _ => false,
    }
}

fn first_replica(scenario: &Scenario, told: &mut Told, number: u64) -> bool
    ensures { spec.Goes (spec.first_replica scenario.now told.old number) result told.new }
{
    if told.sessions == scenario.scripts.len() as u64 {
        replica(scenario, told, number)
    } else {
        false
    }
}

fn replica(scenario: &Scenario, told: &mut Told, number: u64) -> bool
    ensures { spec.Goes (spec.replica scenario.now told.old number) result told.new }
{
    if told.replicas < scenario.kinds.len() as u64 && number == told.replicas {
        told.place = Place::Tables;
        told.replicas += 1;
        told.tables = 0;
        true
    } else {
        false
    }
}

// ---- tables

fn at_tables(scenario: &Scenario, told: &mut Told, form: &Form) -> bool
    ensures { spec.Goes (spec.at_tables scenario.now told.old form.now) result told.new }
{
    match form {
        Form::Table(line) => table(scenario, told, line),
        Form::Replica(number) => next_replica(scenario, told, *number),
        Form::End => finish(scenario, told),
        _ => false,
    }
}

fn next_replica(scenario: &Scenario, told: &mut Told, number: u64) -> bool
    ensures { spec.Goes (spec.next_replica scenario.now told.old number) result told.new }
{
    if has_tables(scenario, told) {
        replica(scenario, told, number)
    } else {
        false
    }
}

fn has_tables(scenario: &Scenario, told: &Told) -> bool
    ensures { result ≡ spec.has_tables scenario.now told.now }
{
    told.tables == scenario.catalog.tables.len() as u64
}

fn finish(scenario: &Scenario, told: &mut Told) -> bool
    ensures { spec.Goes (spec.finish scenario.now told.old) result told.new }
{
    if has_tables(scenario, told) && told.replicas == scenario.kinds.len() as u64 {
        told.place = Place::End;
        true
    } else {
        false
    }
}

fn table(scenario: &Scenario, told: &mut Told, line: &TableLine) -> bool
    ensures { spec.Goes (spec.table scenario.now told.old line.now) result told.new }
{
    if told.tables >= scenario.catalog.tables.len() as u64
        || !is_called(table_at(scenario, told.tables), &line.name)
    {
        return false;
    }
    told.tables += 1;
    told.rows = line.rows;
    go_to_rows(told);
    true
}

fn table_at(scenario: &Scenario, at: u64) -> Option<&TableDef>
    ensures { option_copied result ≡ slice_get scenario.now.catalog.tables at }
{
    scenario.catalog.tables.as_slice().get(at as usize)
}

fn is_called(def: Option<&TableDef>, name: &Name) -> bool
    ensures { result ≡ spec.is_called (option_copied def.entry) name.now }
{
    match def {
        Some(def) => def.name.bytes() == name.bytes(),
        None => false,
    }
}

fn go_to_rows(told: &mut Told)
    ensures { told.new ≡ spec.in_rows told.old }
{
    told.place = if told.rows == 0 {
        Place::Tables
    } else {
        Place::Rows
    };
}

fn row(told: &mut Told) -> bool
    ensures { spec.Goes (spec.row_at told.old told.old.place) result told.new }
{
    match told.place {
        Place::Rows => {
            told.rows = told.rows.saturating_sub(1);
            go_to_rows(told);
            true
        }
        _ => false,
    }
}
