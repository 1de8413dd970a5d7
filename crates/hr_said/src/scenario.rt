//! What a scenario says.

use hr_faulty::Fault;
use hr_forms::EngineKind;
use hr_parse::Ast;
use hr_rel::{Catalog, Rows, Seq, Stmt};

/// The tables with their first rows, the replicas with their faults, what each session does, and in which order.
pub struct Scenario {
    /// How many replicas may answer wrongly.
    pub f: u32,
    /// The engine of each replica, `2f + 1` of them.
    pub kinds: Seq<EngineKind>,
    /// How often a refused transaction is tried again.
    pub retries: u32,
    pub catalog: Catalog,
    /// The rows that each table begins with.
    pub rows: Rows,
    /// The script of each replica, in the order of the lines.
    pub faults: Seq<Seq<Fault>>,
    /// After how many commits each suspicion comes, in ascending order.
    pub suspects: Seq<u64>,
    /// The blocks of each session, in order.
    pub scripts: Seq<Seq<Block>>,
    /// The choices of the schedule, where there is one.
    pub schedule: Option<Seq<Choice>>,
}

impl Drop for Scenario {
    fn drop(self) {
        let Scenario {
            f: _f,
            kinds: _kinds,
            retries: _retries,
            catalog: _catalog,
            rows: _rows,
            faults: _faults,
            suspects: _suspects,
            scripts: _scripts,
            schedule: _schedule,
        } = self;
    }
}

/// The statements of one transaction, and how it ends.
pub struct Block {
    pub stmts: Seq<Stmt>,
    /// The trees that the statements were bound from.
    pub texts: Seq<Ast>,
    /// Whether it ends with COMMIT, and not with ROLLBACK.
    pub commits: bool,
}

impl Drop for Block {
    fn drop(self) {
        let Block {
            stmts: _stmts,
            texts: _texts,
            commits: _commits,
        } = self;
    }
}

/// What happens next.
#[derive(Clone, Copy, Debug, PartialEq, Eq)]
pub enum Choice {
    /// The session with this number, from 1, looks and makes a call.
    Session(u32),
    /// The replica with this number, from 0, takes a job and gives its reply.
    Both(u32),
    /// It takes a job.
    TakeJob(u32),
    /// It gives a reply.
    GiveReply(u32),
    /// So many times every session and then every replica.
    Rounds(u32),
}
