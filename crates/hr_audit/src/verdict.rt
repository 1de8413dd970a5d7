//! What an audit finds.

use hr_rel::Answer;

/// What an audit finds.
#[derive(Debug, PartialEq, Eq, Drop)]
pub enum Verdict {
    /// Each told answer is the one that is due; so many commits are told.
    Agrees(u64),
    /// The first told answer that isn't: that to this statement of this commit, both counted from 1. Both answers are in
    /// canonical form.
    Differs {
        commit: u64,
        index: u64,
        told: Answer,
        due: Answer,
    },
}
