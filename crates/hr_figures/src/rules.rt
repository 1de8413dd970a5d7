//! The rules, asked again and again.
ghost use Rattle.hr_moves.specs.Sane.{IsReplica};

use crate::views::newest;
use hr_pool::{next, preempts};
use hr_progress::View;
use hr_votes::{Tally, evidence, tally};
use std::sync::atomic::{AtomicU32, Ordering};

/// Which rule is asked.
#[derive(Clone, Copy, PartialEq, Eq)]
pub enum Rule {
    Next,
    Preempts,
    Tally,
    Evidence,
    /// Evidence, where each of many transactions waits for all before it.
    Walk,
}

/// How many of so many calls answered something. The replica is read anew for each, so that no call is left out.
pub fn answers(view: &View, rule: Rule, calls: u32) -> u32 {
    let at = AtomicU32::new(0);
    let mut answered = 0;
    'calls: for call in 0..calls {
        let replica = at.load(Ordering::SeqCst);
        if replica <= view.f() && answers_one(view, rule, replica) {
            answered += 1;
        }
    }
    answered
}

fn answers_one(view: &View, rule: Rule, replica: u32) -> bool
    requires { IsReplica view.now replica }
{
    match rule {
        Rule::Next => next(view, replica).is_some(),
        Rule::Preempts => preempts(view, replica).is_some(),
        Rule::Tally => is_accepted(view),
        Rule::Evidence | Rule::Walk => evidence(view, replica).is_some(),
    }
}

fn is_accepted(view: &View) -> bool {
    match newest(view) {
        Some(txn) => matches!(tally(view, txn), Tally::Accept),
        None => false,
    }
}
