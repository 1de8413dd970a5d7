/// How a transaction ends.
#[derive(Clone, Copy, PartialEq, Eq)]
pub enum Ending {
    Commit,
    Rollback,
}
