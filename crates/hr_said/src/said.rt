//! What the lines that were read so far have said.

ghost use Rattle.std.specs.Prelude.{◌≡◌};
ghost use Rattle.hr_said.specs.Said as spec;

use crate::scenario::{Block, Choice, Scenario};
use hr_faulty::Fault;
use hr_forms::EngineKind;
use hr_parse::Ast;
use hr_rel::{Catalog, Rows, Seq, Stmt};
use std::alloc::Global;

/// What the lines so far have said.
#[derive(Drop)]
pub struct Said {
    /// The part of the format to which the last line belongs; 0 before the first line.
    pub part: u32,
    pub inside: Inside,
    pub f: u32,
    pub kinds: Seq<EngineKind>,
    pub retries: u32,
    pub catalog: Catalog,
    pub rows: Rows,
    /// How many rows all tables have.
    pub row_count: u32,
    pub faults: Seq<Seq<Fault>>,
    /// How many faults all replicas have.
    pub fault_count: u32,
    pub suspects: Seq<u64>,
    pub scripts: Seq<Seq<Block>>,
    /// The session that is being read.
    pub session: Session,
    /// How many statements all sessions have.
    pub statements: u32,
    pub choices: Seq<Choice>,
    /// How many choices there are where rounds are written out.
    pub choice_count: u64,
}

/// Where a line stands.
#[derive(Clone, Copy, Debug, PartialEq, Eq)]
pub enum Inside {
    Outside,
    Session,
    Schedule,
}

/// A session of which not all lines were read.
#[derive(Drop)]
pub struct Session {
    pub blocks: Seq<Block>,
    /// The statements of the transaction that is being read, and their trees.
    pub stmts: Seq<Stmt>,
    pub texts: Seq<Ast>,
    /// Whether there is such a transaction: it has BEGIN or a statement, and no end.
    pub is_begun: bool,
    // Whether it only reads is a further field, once such transactions can be begun.
}

impl Said {
    /// Nothing said yet.
    pub fn nothing(alloc: Global) -> Said
        ensures { result ≡ spec.nothing }
    {
        Said {
            part: 0,
            inside: Inside::Outside,
            f: 0,
            kinds: Seq::new(alloc),
            retries: 0,
            catalog: Catalog {
                tables: Seq::new(alloc),
            },
            rows: Seq::new(alloc),
            row_count: 0,
            faults: Seq::new(alloc),
            fault_count: 0,
            suspects: Seq::new(alloc),
            scripts: Seq::new(alloc),
            session: Session::new(alloc),
            statements: 0,
            choices: Seq::new(alloc),
            choice_count: 0,
        }
    }

    /// The scenario that all lines have said.
    pub fn into_scenario(self) -> Scenario
        ensures { result ≡ spec.scenario self }
    {
        let has_schedule = self.part == 8;
        Scenario {
            f: self.f,
            kinds: self.kinds,
            retries: self.retries,
            catalog: self.catalog,
            rows: self.rows,
            faults: self.faults,
            suspects: self.suspects,
            scripts: self.scripts,
            schedule: schedule(has_schedule, self.choices),
        }
    }
}

fn schedule(is_there: bool, choices: Seq<Choice>) -> Option<Seq<Choice>>
    ensures { result ≡ spec.schedule is_there choices }
{
    if is_there { Some(choices) } else { None }
}

impl Session {
    pub fn new(alloc: Global) -> Session
        ensures { result ≡ spec.no_blocks }
    {
        Session {
            blocks: Seq::new(alloc),
            stmts: Seq::new(alloc),
            texts: Seq::new(alloc),
            is_begun: false,
        }
    }
}
