//! A whole report.
ghost use Rattle.std.specs.Prelude.{◌≡◌, ◌+◌, ◌<◌, ◌^◌, List, length, IfOk, IfNone};
ghost use Rattle.hr_rel.specs.declared.stmt.Stmt.{Stmt};
ghost use Rattle.hr_meaning.specs.Serial.{play};
ghost use Rattle.hr_told.specs.Blocks.{AreOf, TellsOf};
ghost use Rattle.hr_told.specs.Serial.{told, due, due_from, statements_of};
ghost use Rattle.hr_audit.specs.Found.{Found};
ghost use Rattle.hr_audit.specs.Wrong.{IsVerdict};

use crate::commit::{Wrong, wrong_in};
use crate::verdict::Verdict;
use hr_machine::Machine;
use hr_rel::Stmt;
use hr_said::Scenario;
use hr_told::{Report, ToldCommit, block_of};
use std::alloc::{AllocError, Global};

/// Whether each told answer is the one that is due, or the first that isn't. The answers due are those of the told blocks run
/// alone, one after another in the told order. The scenario has a list of rows for each table, and each told commit is a block
/// of it, with an answer for each statement.
pub fn audit(alloc: Global, scenario: &Scenario, report: &Report) -> Result<Verdict, AllocError>
    requires rows { length scenario.now.rows ≡ length scenario.now.catalog.tables }
    requires commits { AreOf scenario.now report.now.commits }
    ensures { IfOk result (IsVerdict (told report.now.commits) (due scenario.now report.now.commits)) }
{
    let mut machine = Machine::with_rows(alloc, &scenario.catalog, &scenario.rows)?;
    verdict(alloc, scenario, &mut machine, report.commits.as_slice())
}

fn verdict(
    alloc: Global,
    scenario: &Scenario,
    machine: &mut Machine,
    commits: &[ToldCommit],
) -> Result<Verdict, AllocError>
    requires { AreOf scenario.now commits.now }
    ensures { IfOk result (IsVerdict (told commits.now) (due_from scenario.now machine.old commits.now)) }
{
    'commits: for (place, commit) in commits.iter().enumerate() {
        if let Some(wrong) = wrong_commit(alloc, scenario, machine, commit)? {
            return Ok(differs(place, wrong));
        }
    }
    Ok(Verdict::Agrees(commits.len() as u64))
}

/// The first of a commit's told answers that isn't due, if there is one; the block's statements are run up to it, or all of them.
fn wrong_commit(
    alloc: Global,
    scenario: &Scenario,
    machine: &mut Machine,
    commit: &ToldCommit,
) -> Result<Option<Wrong>, AllocError>
    requires { (stmts : List Stmt) × TellsOf scenario.now commit.now stmts }
    ensures found { IfOk result (Found 0 commit.now.answers (play machine.old (statements_of scenario.now commit.now)).answers) }
    ensures after { IfOk result (λ wrong. IfNone wrong (machine.new ≡ (play machine.old (statements_of scenario.now commit.now)).after)) }
{
    let Some(stmts) = block_of(scenario, commit.session, commit.block) else {
        unreachable!()
    };
    wrong_in(alloc, machine, stmts, commit.answers.as_slice(), 0)
}

fn differs(place: usize, wrong: Wrong) -> Verdict
    requires { place + 1 < 2 ^ 64 }
    ensures { result ≡ Verdict.Differs (place + 1) wrong.index wrong.told wrong.due }
{
    Verdict::Differs {
        commit: place as u64 + 1,
        index: wrong.index,
        told: wrong.told,
        due: wrong.due,
    }
}
