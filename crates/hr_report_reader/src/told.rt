//! What the items so far have told.
ghost use Rattle.std.specs.Prelude.{◌≡◌, replicate, IfOk};
ghost use Rattle.hr_report_reader.specs.Told as spec;

use crate::form::CommitLine;
use hr_rel::{Answer, Seq};
use hr_said::Scenario;
use hr_told::{Report, ToldCommit};
use std::alloc::{AllocError, Global};

/// What may come next.
#[derive(Clone, Copy, Debug, PartialEq, Eq)]
pub enum Place {
    /// The version.
    Start,
    /// How many commits there are.
    Count,
    /// A commit, or behind the last of them a session.
    Commits,
    /// An answer of the last commit.
    Answers,
    /// A try of the last session, or the next session, or behind the last of them a conviction or the first replica.
    Tries,
    /// The given answer of a try that ends because it differs.
    Given,
    /// The answer that is agreed on.
    Agreed,
    /// A conviction, or the first replica.
    Convictions,
    /// A table of the last replica, or behind the last of them the next replica or the end.
    Tables,
    /// A row of the last table.
    Rows,
    /// Nothing.
    End,
}

/// What the items so far have told.
#[derive(Drop)]
pub struct Told {
    pub place: Place,
    /// How many commits there are to be.
    pub count: u64,
    /// Those told, with all their answers.
    pub commits: Seq<ToldCommit>,
    /// The last told block of each session; 0 where none was told.
    pub blocks: Seq<u32>,
    /// The commit whose answers are being told, those told so far, and how many there are to be.
    pub line: CommitLine,
    pub answers: Seq<Answer>,
    pub due: u64,
    /// How many sessions and replicas were told, and tables of the last replica.
    pub sessions: u64,
    pub replicas: u64,
    pub tables: u64,
    /// How many rows of the last table are still to come.
    pub rows: u64,
}

impl Told {
    /// Nothing told yet.
    pub fn nothing(alloc: Global, scenario: &Scenario) -> Result<Told, AllocError>
        ensures { IfOk result (λ told. told ≡ spec.nothing scenario.now) }
    {
        Ok(Told {
            place: Place::Start,
            count: 0,
            commits: Seq::new(alloc),
            blocks: no_blocks(alloc, scenario.scripts.len())?,
            line: CommitLine {
                place: 0,
                session: 0,
                block: 0,
                txn: 0,
            },
            answers: Seq::new(alloc),
            due: 0,
            sessions: 0,
            replicas: 0,
            tables: 0,
            rows: 0,
        })
    }

    /// The report that all items have told.
    pub fn into_report(self) -> Report
        ensures { result ≡ record { commits = self.commits } }
    {
        Report {
            commits: self.commits,
        }
    }
}

fn no_blocks(alloc: Global, sessions: usize) -> Result<Seq<u32>, AllocError>
    ensures { IfOk result (λ blocks. blocks ≡ replicate sessions 0) }
{
    Ok(Seq::from_vec(vec![in alloc; 0; sessions]?))
}
