//! What a view tells, as its record does.
ghost use Rattle.std.specs.Prelude.{◌≡◌, ◌≤◌, ◌+◌, ◌*◌, length, map};
ghost use Rattle.std.specs.Option.{option_map};
ghost use Rattle.hr_base.specs.Lists.{numbered};
ghost use Rattle.hr_base.specs.declared.limits.TheConstants.{MAX_STATEMENTS};
ghost use Rattle.hr_history.specs.Given.{Given};
ghost use Rattle.hr_history.specs.Processed as history;
ghost use Rattle.hr_history.specs.Processed.{txn_in, phase_in, replica_in, answers_in, runs_in, processed_in, live_in, attempt_in, candidate_in};
ghost use Rattle.hr_history.specs.Ranks.{is_before, rank_by, ranks_before};
ghost use Rattle.hr_moves.specs.Kept.{open_in, touched_in};
ghost use Rattle.hr_moves.specs.Sane.{IsReplica};
ghost use Rattle.hr_progress.specs.Plain.{plain_entry, plain_attempt_in};

use crate::attempt::Attempt;
use crate::progress::{
    answered_at, candidate_after, convicted_of, doubt_of, is_logged_by, lost_of, out_of,
    position_of, processed_of, touched_of,
};
use crate::txn::{given_of, phase_of, stamp_at, statements_of};
use crate::view::View;
use hr_engine::TxnId;
use hr_history::{Fresh, Job, Phase};
use indexmap::IndexMap;

impl View {
    /// The decided transactions, in the order of their decisions.
    pub fn log(&self) -> &[TxnId]
        ensures { result.now ≡ self.now.log }
    {
        &self.log
    }

    /// The open transactions, in ascending order.
    pub fn opened(&self) -> &[TxnId]
        ensures { result.now ≡ open_in self.now }
    {
        &self.opened
    }

    /// The transactions that have something to roll back at a replica, in ascending order.
    pub fn touched(&self, replica: u32) -> &[TxnId]
        requires { IsReplica self.now replica }
        ensures { result.now ≡ touched_in self.now replica }
    {
        touched_of(&self.replicas, replica)
    }

    /// How many of the log, from its first on, are processed at a replica: committed, or whole.
    pub fn processed(&self, replica: u32) -> u64
        requires { IsReplica self.now replica }
        ensures { result ≡ processed_in self.now replica }
    {
        processed_of(&self.replicas, replica)
    }

    /// How many transactions a replica has committed.
    pub fn position(&self, replica: u32) -> u64
        ensures { result ≡ (replica_in self.now replica).position }
    {
        position_of(&self.replicas, replica)
    }

    /// Whether a replica is lost.
    pub fn is_lost(&self, replica: u32) -> bool
        ensures { result ≡ (replica_in self.now replica).lost }
    {
        lost_of(&self.replicas, replica)
    }

    /// Whether a replica is convicted.
    pub fn is_convicted(&self, replica: u32) -> bool
        ensures { result ≡ (replica_in self.now replica).convicted }
    {
        convicted_of(&self.replicas, replica)
    }

    /// Whether a replica's last commit is in doubt.
    pub fn is_in_doubt(&self, replica: u32) -> bool
        ensures { result ≡ (replica_in self.now replica).doubt }
    {
        doubt_of(&self.replicas, replica)
    }

    /// The job that is out at a replica.
    pub fn out(&self, replica: u32) -> Option<Job>
        ensures { result ≡ (replica_in self.now replica).out }
    {
        out_of(&self.replicas, replica)
    }

    /// Where a transaction stands.
    pub fn phase(&self, txn: TxnId) -> Phase
        ensures { result ≡ phase_in self.now txn }
    {
        phase_of(&self.txns, txn)
    }

    /// How many statements of a transaction were submitted.
    pub fn statements(&self, txn: TxnId) -> u32
        ensures value { result ≡ (txn_in self.now txn).statements }
        ensures few { result ≤ MAX_STATEMENTS }
    {
        statements_of(&self.txns, txn)
    }

    /// The length of the log when the answer to a transaction's statement with this index, from 1, was given, if it was.
    pub fn stamp(&self, txn: TxnId, index: u32) -> Option<u64>
        ensures { result ≡ option_map (λ (g : Given). g.stamp) (numbered (txn_in self.now txn).given index) }
    {
        stamp_at(given_of(&self.txns, txn), index)
    }

    /// How many statements of a transaction are answered in its attempt at a replica.
    pub fn answered(&self, replica: u32, txn: TxnId) -> usize
        ensures { result ≡ length (answers_in self.now replica txn) }
    {
        answered_at(&self.replicas, replica, txn)
    }

    /// Whether a transaction runs at a replica: its attempt there has a statement.
    pub fn runs(&self, replica: u32, txn: TxnId) -> bool
        ensures { result ≡ runs_in self.now replica txn }
    {
        self.answered(replica, txn) > 0
    }

    /// Whether every statement of a transaction is answered in its attempt at a replica.
    pub fn is_whole(&self, replica: u32, txn: TxnId) -> bool
        ensures { result ≡ history.is_whole self.now replica txn }
    {
        self.answered(replica, txn) == self.statements(txn) as usize
    }

    /// Whether a transaction is committed at a replica.
    pub fn is_committed(&self, replica: u32, txn: TxnId) -> bool
        ensures { result ≡ history.is_committed self.now replica txn }
    {
        is_logged_by(self.phase(txn), self.position(replica))
    }

    /// Whether a transaction ranks before another: logged ones by their place, then asked ones in the order of asking,
    /// then the other open ones by number, and ended ones last.
    pub fn rank_before(&self, a: TxnId, b: TxnId) -> bool
        ensures { result ≡ ranks_before self.now a b }
    {
        is_before(self.phase(a), a, self.phase(b), b)
    }

    /// How many replicas may lie: there are 2f + 1.
    pub fn f(&self) -> u32
        ensures value { result ≡ self.now.f }
        ensures few { self.now.f ≤ 3 }
    {
        self.f
    }

    /// The run that the turn's call replied to, if it did.
    pub fn fresh(&self) -> Option<Fresh>
        ensures { result ≡ self.now.fresh }
    {
        self.fresh
    }

    /// The candidate: the first live replica from the one after the start of the search on, and round to that. None where
    /// every replica is lost or convicted.
    pub fn candidate(&self) -> Option<u32>
        ensures { result ≡ candidate_in self.now }
    {
        candidate_after(&self.replicas, self.f, self.search_after)
    }

    /// How many replicas there are.
    pub fn replicas(&self) -> u64
        ensures { result ≡ 2 * self.now.f + 1 }
    {
        2 * self.f as u64 + 1
    }

    /// The replica after which the search for a candidate starts.
    pub fn search_after(&self) -> u32
        ensures { result ≡ self.now.search_after }
    {
        self.search_after
    }

    /// Whether a replica is neither lost nor convicted.
    pub fn is_live(&self, replica: u64) -> bool
        ensures { result ≡ live_in self.now replica }
    {
        match self.replicas.get(replica as usize) {
            Some(progress) => !progress.lost && !progress.convicted,
            None => true,
        }
    }

    /// Whether a transaction was preempted at a replica since its attempt there began.
    pub fn is_preempted(&self, replica: u32, txn: TxnId) -> bool
        ensures { result ≡ (attempt_in self.now replica txn).preempted }
    {
        match self.replicas.get(replica as usize) {
            Some(progress) => preempted_in(&progress.attempts, txn),
            None => false,
        }
    }
}

// Whether a transaction was preempted since its attempt began.
fn preempted_in(attempts: &IndexMap<TxnId, Attempt>, txn: TxnId) -> bool
    ensures { result ≡ (plain_attempt_in (map plain_entry attempts.now.entries) txn).preempted }
{
    match attempts.get(&txn) {
        Some(attempt) => attempt.preempted,
        None => false,
    }
}

// Whether one of two transactions in these phases ranks before the other.
fn is_before(phase: Phase, txn: TxnId, other_phase: Phase, other: TxnId) -> bool
    ensures { result ≡ is_before (rank_by phase txn) (rank_by other_phase other) }
{
    let (kind, other_kind) = (kind_of(phase), kind_of(other_phase));
    kind < other_kind
        || (kind == other_kind && number_of(phase, txn) < number_of(other_phase, other))
}

fn kind_of(phase: Phase) -> u32
    ensures { result ≡ (rank_by phase 0).kind }
{
    match phase {
        Phase::Logged(_) => 0,
        Phase::Asked(_) => 1,
        Phase::Active => 2,
        Phase::RolledBack | Phase::Refused => 3,
    }
}

fn number_of(phase: Phase, txn: TxnId) -> u64
    ensures { result ≡ (rank_by phase txn).number }
{
    match phase {
        Phase::Logged(place) => place,
        Phase::Asked(number) => number,
        _ => txn,
    }
}
