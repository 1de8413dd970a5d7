//! Decisions, and refusals for the votes. Both are of transactions whose commit was asked for, so of open ones.
ghost use Rattle.std.specs.Prelude.{◌≡◌, if◌then◌else◌, filter, IfSome, IsTrue};
ghost use Rattle.hr_base.specs.Lists.{earlier};
ghost use Rattle.hr_history.specs.Jobs.{txn_numbers};
ghost use Rattle.hr_history.specs.Ranks.{first_in_rank, ranks_before};
ghost use Rattle.hr_history.specs.Rules as history;
ghost use Rattle.hr_history.specs.Turn.{Turn};
ghost use Rattle.hr_history.specs.Votes.{is_decidable, is_contradicted};
ghost use Rattle.hr_due.specs.FollowUps.{events_of};

use crate::follow_up::FollowUp;
use hr_engine::TxnId;
use hr_history::CauseAt;
use hr_pool::earlier;
use hr_progress::View;
use hr_votes::{Tally, tally};

/// The transaction is decided that ranks first of those that may be.
pub fn decide(view: &View) -> Option<FollowUp>
    ensures { (turn : Turn) → events_of result ≡ history.decide view.now turn }
{
    match to_decide(view) {
        Some(txn) => Some(FollowUp::Decide { txn }),
        None => None,
    }
}

// The one that ranks first of those that may be decided.
fn to_decide(view: &View) -> Option<TxnId>
    ensures { result ≡ first_in_rank view.now (filter (is_decidable view.now) (txn_numbers view.now)) }
{
    first_decidable(view, view.opened())
}

// Of these the one that ranks first and may be decided.
fn first_decidable(view: &View, txns: &[TxnId]) -> Option<TxnId>
    ensures { result ≡ first_in_rank view.now (filter (is_decidable view.now) txns.now) }
{
    let mut first = None;
    let mut left = txns.len();
    'txns: while left > 0 {
        left -= 1;
        first = or_decide(view, txns[left], first);
    }
    first
}

// Of a transaction, where it may be decided, and one behind it, the one that ranks first.
fn or_decide(view: &View, txn: TxnId, behind: Option<TxnId>) -> Option<TxnId>
    ensures { result ≡ (if is_decidable view.now txn then earlier (ranks_before view.now) txn behind else behind) }
{
    if may_be_decided(view, txn) {
        earlier(view, txn, behind)
    } else {
        behind
    }
}

// Whether the votes accept a transaction's given answers.
fn may_be_decided(view: &View, txn: TxnId) -> bool
    ensures { result ≡ is_decidable view.now txn }
{
    match tally(view, txn) {
        Tally::Accept => true,
        Tally::Differ { .. } | Tally::Undecided => false,
    }
}

/// The transaction is refused that ranks first of those whose given answers are contradicted.
pub fn differ(view: &View) -> Option<FollowUp>
    ensures { (turn : Turn) → events_of result ≡ history.differ view.now turn }
{
    match to_refuse(view) {
        Some(txn) => refusal(view, txn),
        None => None,
    }
}

// Its refusal.
fn refusal(view: &View, txn: TxnId) -> Option<FollowUp>
    requires { IsTrue (is_contradicted view.now txn) }
    ensures { (turn : Turn) → events_of result ≡ history.refuse_as_differ view.now turn txn }
{
    let Tally::Differ { index, by } = tally(view, txn) else {
        unreachable!()
    };
    Some(FollowUp::Refuse {
        txn,
        cause: CauseAt::Differ {
            index,
            by,
            at: view.answer_place(by, txn, index),
        },
    })
}

// The one that ranks first of those whose given answers are contradicted.
fn to_refuse(view: &View) -> Option<TxnId>
    ensures first { result ≡ first_in_rank view.now (filter (is_contradicted view.now) (txn_numbers view.now)) }
    ensures its { IfSome result (λ t. IsTrue (is_contradicted view.now t)) }
{
    first_contradicted(view, view.opened())
}

// Of these the one that ranks first and whose given answers are contradicted.
fn first_contradicted(view: &View, txns: &[TxnId]) -> Option<TxnId>
    ensures { result ≡ first_in_rank view.now (filter (is_contradicted view.now) txns.now) }
{
    let mut first = None;
    let mut left = txns.len();
    'txns: while left > 0 {
        left -= 1;
        first = or_refuse(view, txns[left], first);
    }
    first
}

// Of a transaction, where its given answers are contradicted, and one behind it, the one that ranks first.
fn or_refuse(view: &View, txn: TxnId, behind: Option<TxnId>) -> Option<TxnId>
    ensures { result ≡ (if is_contradicted view.now txn then earlier (ranks_before view.now) txn behind else behind) }
{
    if is_contradicted(view, txn) {
        earlier(view, txn, behind)
    } else {
        behind
    }
}

// Whether the votes are for other answers than those given to a transaction.
fn is_contradicted(view: &View, txn: TxnId) -> bool
    ensures { result ≡ is_contradicted view.now txn }
{
    match tally(view, txn) {
        Tally::Differ { .. } => true,
        Tally::Accept | Tally::Undecided => false,
    }
}
