//! What a replica is given to do.

use hr_history::Job;
use hr_rel::Stmt;

/// A job, and the statement that it is to run, where it is to run one.
#[derive(Drop)]
pub struct Order {
    pub job: Job,
    pub stmt: Option<Stmt>,
}
