//! Where a session and its transactions begin and end.

ghost use Rattle.std.specs.Prelude.{◌≡◌, ◌≤◌, length};
ghost use Rattle.hr_said.specs.Outcomes.{Gives};
ghost use Rattle.hr_sessions.specs.Sessions as spec;

use crate::statement::statement;
use hr_base::limits::MAX_SESSIONS;
use hr_line::{ScriptForm, script_form_of};
use hr_said::{Block, InputKind, Inside, LineError, Said, Session, may_stand};
use std::alloc::Global;
use std::mem;

/// `session`.
pub fn session(alloc: Global, said: &mut Said) -> Result<(), LineError>
    ensures { Gives (spec.session said.old) said.new result }
{
    if let Some(kind) = session_refusal(said) {
        return Err(LineError::Refused(kind));
    }
    said.part = 7;
    said.inside = Inside::Session;
    said.session = Session::new(alloc);
    Ok(())
}

fn session_refusal(said: &Said) -> Option<InputKind>
    ensures { result ≡ spec.session_refusal said.now }
{
    if !may_stand(said.part, 7) {
        return Some(InputKind::Form);
    }
    if said.scripts.len() >= MAX_SESSIONS as usize {
        return Some(InputKind::Limit);
    }
    None
}

/// A line of a session, by what it holds.
pub fn session_line(alloc: Global, said: &mut Said, line: &str) -> Result<(), LineError>
    ensures { Gives (spec.session_line said.old line.now) said.new result }
{
    match script_form_of(line.as_bytes()) {
        ScriptForm::End => end_session(alloc, said),
        ScriptForm::Begin => begin(said),
        ScriptForm::Commit => end_block(alloc, said, true),
        ScriptForm::Rollback => end_block(alloc, said, false),
        ScriptForm::Statement => statement(alloc, said, line),
    }
}

/// `end`, which no transaction may be open at.
fn end_session(alloc: Global, said: &mut Said) -> Result<(), LineError>
    ensures { Gives (spec.end_session said.old) said.new result }
{
    if said.session.is_begun {
        return Err(LineError::Refused(InputKind::Unended));
    }
    let Session { blocks, .. } = mem::replace(&mut said.session, Session::new(alloc));
    said.inside = Inside::Outside;
    said.scripts.push(blocks)?;
    Ok(())
}

/// `BEGIN`, which stands first in its transaction.
fn begin(said: &mut Said) -> Result<(), LineError>
    ensures { Gives (spec.begin said.old) said.new result }
{
    if said.session.is_begun {
        return Err(LineError::Refused(InputKind::Form));
    }
    said.session.is_begun = true;
    Ok(())
}

/// `COMMIT` and `ROLLBACK`: the end of a transaction.
fn end_block(alloc: Global, said: &mut Said, commits: bool) -> Result<(), LineError>
    ensures { Gives (spec.end_block said.old commits) said.new result }
{
    let Session {
        mut blocks,
        stmts,
        texts,
        ..
    } = mem::replace(&mut said.session, Session::new(alloc));
    blocks.push(Block {
        stmts,
        texts,
        commits,
    })?;
    said.session.blocks = blocks;
    Ok(())
}
