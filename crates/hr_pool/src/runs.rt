//! Runs: of the statements that may run at a replica the one whose transaction ranks first.
ghost use Rattle.std.specs.Prelude.{◌≡◌, if◌then◌else◌, find, filter, length, slice_get, IfSome, IsTrue};
ghost use Rattle.std.specs.Option.{option_map};
ghost use Rattle.hr_history.specs.declared.job.Job.TheVariants as job;
ghost use Rattle.hr_history.specs.Processed.{is_primary, processed_in, answers_in, txn_in};
ghost use Rattle.hr_history.specs.Ranks.{first_in_rank, ranks_before};
ghost use Rattle.hr_history.specs.Transactions as history;
ghost use Rattle.hr_history.specs.Jobs as jobs;
ghost use Rattle.hr_history.specs.Jobs.{txn_numbers};
ghost use Rattle.hr_base.specs.Lists.{earlier};
ghost use Rattle.hr_moves.specs.Sane.{IsReplica};
ghost use Rattle.hr_pool.specs.Searched.{repeat_next};

use hr_engine::TxnId;
use hr_progress::{Job, Phase, View};

/// The run that comes next at a replica: at the primary of a pending statement, elsewhere of one that was answered there.
pub fn to_run(view: &View, replica: u32) -> Option<Job>
    requires { IsReplica view.now replica }
    ensures { result ≡ jobs.run_job view.now replica }
{
    if is_primary(view, replica) {
        first_run(view, replica)
    } else {
        repeated_run(view, replica)
    }
}

/// Whether a replica is the primary.
pub fn is_primary(view: &View, replica: u32) -> bool
    ensures { result ≡ is_primary view.now replica }
{
    match view.primary() {
        Some(primary) => replica == primary,
        None => false,
    }
}

// ---- at the primary

// The pending statement that runs next at the primary.
fn first_run(view: &View, replica: u32) -> Option<Job>
    ensures { result ≡ option_map (λ t. job.Run t (jobs.pending_index view.now replica t)) (first_in_rank view.now (filter (jobs.may_run_first view.now replica) (txn_numbers view.now))) }
{
    match to_run_first(view, replica) {
        Some(txn) => Some(Job::Run(txn, pending_index(view, replica, txn))),
        None => None,
    }
}

// The transaction whose pending statement runs at the primary: the open one that ranks first.
fn to_run_first(view: &View, replica: u32) -> Option<TxnId>
    ensures { result ≡ first_in_rank view.now (filter (jobs.may_run_first view.now replica) (txn_numbers view.now)) }
{
    first_to_run(view, replica, view.opened())
}

// Of these the one that ranks first and whose pending statement may run.
fn first_to_run(view: &View, replica: u32, txns: &[TxnId]) -> Option<TxnId>
    ensures { result ≡ first_in_rank view.now (filter (jobs.may_run_first view.now replica) txns.now) }
{
    let mut first = None;
    let mut left = txns.len();
    'txns: while left > 0 {
        left -= 1;
        first = or_run(view, replica, txns[left], first);
    }
    first
}

// Of a transaction, where its pending statement may run, and one behind it, the one that ranks first.
fn or_run(view: &View, replica: u32, txn: TxnId, behind: Option<TxnId>) -> Option<TxnId>
    ensures { result ≡ (if jobs.may_run_first view.now replica txn then earlier (ranks_before view.now) txn behind else behind) }
{
    if may_run_first(view, replica, txn) {
        earlier(view, txn, behind)
    } else {
        behind
    }
}

// Whether a transaction's pending statement may run at the primary.
fn may_run_first(view: &View, replica: u32, txn: TxnId) -> bool
    ensures { result ≡ jobs.may_run_first view.now replica txn }
{
    is_open(view.phase(txn))
        && view.given(txn) < view.statements(txn)
        && view.may_go_on(replica, txn)
}

// The index of the statement that isn't answered yet.
fn pending_index(view: &View, replica: u32, txn: TxnId) -> u32
    ensures { result ≡ jobs.pending_index view.now replica txn }
{
    view.sane();
    view.statements(txn);
    view.given(txn) + 1
}

// ---- at the others

// The statement that runs next at a replica that isn't the primary.
fn repeated_run(view: &View, replica: u32) -> Option<Job>
    requires { IsReplica view.now replica }
    ensures { result ≡ option_map (λ t. job.Run t (jobs.next_index view.now replica t)) (first_in_rank view.now (filter (jobs.may_repeat view.now replica) (txn_numbers view.now))) }
{
    match to_repeat(view, replica) {
        Some(txn) => Some(Job::Run(txn, next_index(view, replica, txn))),
        None => None,
    }
}

// The transaction whose next statement runs at a replica that isn't the primary.
fn to_repeat(view: &View, replica: u32) -> Option<TxnId>
    requires { IsReplica view.now replica }
    ensures first { result ≡ first_in_rank view.now (filter (jobs.may_repeat view.now replica) (txn_numbers view.now)) }
    ensures may { IfSome result (λ t. IsTrue (jobs.may_repeat view.now replica t)) }
{
    view.sane();
    behind_or_open(view, replica)
}

// The first of the log behind what is processed whose next statement may run, else the one of the open ones that ranks
// first.
fn behind_or_open(view: &View, replica: u32) -> Option<TxnId>
    requires { IsReplica view.now replica }
    ensures { result ≡ repeat_next view.now replica }
{
    let (_processed, behind) = view.log().split_at(view.processed(replica) as usize);
    match first_behind(view, replica, behind) {
        Some(txn) => Some(txn),
        None => first_open(view, replica, view.opened()),
    }
}

// The first of these whose next statement may run.
fn first_behind(view: &View, replica: u32, txns: &[TxnId]) -> Option<TxnId>
    requires { IsReplica view.now replica }
    ensures { result ≡ find (jobs.may_repeat view.now replica) txns.now }
{
    'txns: for txn in txns {
        if may_repeat(view, replica, *txn) {
            return Some(*txn);
        }
    }
    None
}

// Of these the one that ranks first and whose next statement may run.
fn first_open(view: &View, replica: u32, txns: &[TxnId]) -> Option<TxnId>
    requires { IsReplica view.now replica }
    ensures { result ≡ first_in_rank view.now (filter (jobs.may_repeat view.now replica) txns.now) }
{
    let mut first = None;
    let mut left = txns.len();
    'txns: while left > 0 {
        left -= 1;
        first = or_repeat(view, replica, txns[left], first);
    }
    first
}

// Of a transaction, where its next statement may run, and one behind it, the one that ranks first.
fn or_repeat(view: &View, replica: u32, txn: TxnId, behind: Option<TxnId>) -> Option<TxnId>
    requires { IsReplica view.now replica }
    ensures { result ≡ (if jobs.may_repeat view.now replica txn then earlier (ranks_before view.now) txn behind else behind) }
{
    if may_repeat(view, replica, txn) {
        earlier(view, txn, behind)
    } else {
        behind
    }
}

// Whether a transaction's next statement may run at a replica that isn't the primary.
fn may_repeat(view: &View, replica: u32, txn: TxnId) -> bool
    requires { IsReplica view.now replica }
    ensures { result ≡ jobs.may_repeat view.now replica txn }
{
    let phase = view.phase(txn);
    (is_open(phase) || (is_logged(phase) && !view.is_committed(replica, txn)))
        && is_released(view, replica, txn)
        && view.may_go_on(replica, txn)
}

// Whether the barrier of a transaction's next statement lets it go: as much of the log as its stamp says is processed.
fn is_released(view: &View, replica: u32, txn: TxnId) -> bool
    requires { IsReplica view.now replica }
    ensures { result ≡ jobs.is_stamped_by (processed_in view.now replica) (slice_get (txn_in view.now txn).given (length (answers_in view.now replica txn))) }
{
    match view.stamp_after(txn, view.answered(replica, txn)) {
        Some(stamp) => stamp <= view.processed(replica),
        None => false,
    }
}

// The index of the statement that comes next in a transaction's attempt.
fn next_index(view: &View, replica: u32, txn: TxnId) -> u32
    requires { IsTrue (jobs.may_repeat view.now replica txn) }
    ensures { result ≡ jobs.next_index view.now replica txn }
{
    // a statement that has a stamp was submitted
    view.sane();
    view.statements(txn);
    view.answered(replica, txn) as u32 + 1
}

// ---- ranks

/// Of a transaction and one behind it, the second where that ranks before the first.
pub fn earlier(view: &View, txn: TxnId, behind: Option<TxnId>) -> Option<TxnId>
    ensures { result ≡ earlier (ranks_before view.now) txn behind }
{
    match behind {
        Some(other) => {
            if view.rank_before(other, txn) {
                Some(other)
            } else {
                Some(txn)
            }
        }
        None => Some(txn),
    }
}

/// Whether a phase is that of an open transaction.
pub fn is_open(phase: Phase) -> bool
    ensures { result ≡ history.is_open phase }
{
    match phase {
        Phase::Active | Phase::Asked(_) => true,
        Phase::Logged(_) | Phase::RolledBack | Phase::Refused => false,
    }
}

fn is_logged(phase: Phase) -> bool
    ensures { result ≡ history.is_logged phase }
{
    match phase {
        Phase::Logged(_) => true,
        Phase::Active | Phase::Asked(_) | Phase::RolledBack | Phase::Refused => false,
    }
}
