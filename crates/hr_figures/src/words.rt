//! What the program is asked for.

use crate::rules::Rule;
use crate::runs::{Load, Replies};

/// What is measured.
#[derive(Clone, Copy)]
pub enum Task {
    Run(Load),
    Ask(Rule),
    /// How long a turn of the turn lock takes.
    Times,
}

/// One session of transactions of one statement, three replicas.
pub const ONE_SESSION: Load = Load {
    f: 1,
    sessions: 1,
    statements: 1,
    jobs: 1,
    replies: Replies::Same,
};

/// 64 sessions of transactions without statements, three replicas.
pub const EMPTY: Load = Load {
    f: 1,
    sessions: 64,
    statements: 0,
    jobs: 1,
    replies: Replies::Same,
};

/// 64 sessions of transactions of one statement, seven replicas.
pub const SESSIONS: Load = Load {
    f: 3,
    sessions: 64,
    statements: 1,
    jobs: 1,
    replies: Replies::Same,
};

/// The same on one row, where each replica goes on until it has no job.
pub const ONE_ROW: Load = Load {
    f: 3,
    sessions: 64,
    statements: 1,
    jobs: 64,
    replies: Replies::OneRow,
};

/// The task of this name, if there is one.
pub fn task_of(name: &str) -> Option<Task> {
    match name {
        "one_session" => Some(Task::Run(ONE_SESSION)),
        "empty" => Some(Task::Run(EMPTY)),
        "sessions" => Some(Task::Run(SESSIONS)),
        "one_row" => Some(Task::Run(ONE_ROW)),
        "load" => Some(Task::Run(load(Replies::Same))),
        "left_out" => Some(Task::Run(load(Replies::LastLeftOut))),
        "convicted" => Some(Task::Run(load(Replies::LastLies))),
        "job" => Some(Task::Ask(Rule::Next)),
        "preempts" => Some(Task::Ask(Rule::Preempts)),
        "tally" => Some(Task::Ask(Rule::Tally)),
        "evidence" => Some(Task::Ask(Rule::Evidence)),
        "walk" => Some(Task::Ask(Rule::Walk)),
        "times" => Some(Task::Times),
        _ => None,
    }
}

// Eight sessions of transactions of two statements, three replicas.
fn load(replies: Replies) -> Load {
    Load {
        f: 1,
        sessions: 8,
        statements: 2,
        jobs: 1,
        replies,
    }
}
