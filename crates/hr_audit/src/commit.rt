//! One told commit.
ghost use Rattle.std.specs.Prelude.{◌≡◌, ◌+◌, ◌<◌, ◌^◌, length, IfOk, OnOk, IfNone};
ghost use Rattle.std.specs.List.{AllByRecursion};
ghost use Rattle.hr_answer.specs.Canonical.{IsCanonical};
ghost use Rattle.hr_meaning.specs.SameAnswer.{SameAnswer};
ghost use Rattle.hr_meaning.specs.Exec.{exec};
ghost use Rattle.hr_meaning.specs.Serial.{play};
ghost use Rattle.hr_audit.specs.Found.{Found};

use hr_answer::{canonical, same};
use hr_machine::Machine;
use hr_rel::{Answer, Stmt, TryCopy};
use std::alloc::{AllocError, Global};

/// A told answer that isn't the one due.
#[derive(Drop)]
pub struct Wrong {
    /// Its number among the answers of the commit, from 1.
    pub index: u64,
    pub told: Answer,
    pub due: Answer,
}

/// The first of a commit's told answers that isn't due, where `place` answers of it stand before these: the statements are run
/// up to it, or all of them.
pub fn wrong_in(
    alloc: Global,
    machine: &mut Machine,
    stmts: &[Stmt],
    told: &[Answer],
    place: usize,
) -> Result<Option<Wrong>, AllocError>
    requires lengths { length told.now ≡ length stmts.now }
    requires few { place + length told.now < 2 ^ 64 }
    requires canonical { AllByRecursion IsCanonical told.now }
    ensures found { IfOk result (Found place told.now (play machine.old stmts.now).answers) }
    ensures after { IfOk result (λ wrong. IfNone wrong (machine.new ≡ (play machine.old stmts.now).after)) }
{
    let [stmt, stmts @ ..] = stmts else {
        return Ok(None);
    };
    let [answer, told @ ..] = told else {
        return Ok(None);
    };
    let due = due_to(machine, stmt)?;
    if !same(answer, &due) {
        let index = place as u64 + 1;
        let told = answer.try_copy(alloc)?;
        return Ok(Some(Wrong { index, told, due }));
    }
    wrong_in(alloc, machine, stmts, told, place + 1)
}

/// Runs a statement; its answer, in canonical form.
fn due_to(machine: &mut Machine, stmt: &Stmt) -> Result<Answer, AllocError>
    ensures same { IfOk result (SameAnswer (exec machine.old stmt.now).answer) }
    ensures canonical { IfOk result IsCanonical }
    ensures after { OnOk result (machine.new ≡ (exec machine.old stmt.now).after) }
{
    let mut due = machine.run(stmt)?;
    canonical(&mut due);
    Ok(due)
}
