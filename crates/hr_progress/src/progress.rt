//! A replica, as the view keeps it.
ghost use Rattle.std.specs.Prelude.{◌≡◌, ◌+◌, ◌-◌, ◌*◌, ◌^◌, ◌<◌, ◌≤◌, find, length, map, nat_eq, option_copied, position, slice_get, replicate, slice_index, None, Some, true, false, nat_lt, take_while, vec_len, vec_capacity, IfOk, OnOk, OnErr, IsTrue};
ghost use Rattle.std.specs.Map.{lookup};
ghost use Rattle.std.specs.Option.{option_map};
ghost use Rattle.std.specs.List.{list_any, list_all, range_with_len};
ghost use Rattle.hr_base.specs.declared.limits.TheConstants.{MAX_SUBMITS};
ghost use Rattle.hr_history.specs.Primary as primary;
ghost use Rattle.hr_history.specs.Processed as history;
ghost use Rattle.hr_moves.specs.Changes.{map_from, change_at};
ghost use Rattle.hr_moves.specs.Kept as moves;
ghost use Rattle.hr_moves.specs.Kept.{and_in_order};
ghost use Rattle.hr_progress.specs.Plain.{key, and_entry, with_run, with_out, with_answered, with_waiting, with_loss, with_ended, with_commit, to_free, plain_txn, plain_entry, plain_attempt, plain_progress, plain_attempt_in, plain_replica_in, live_of, idle_progress, to_convicted, with_preempted, with_restart};
ghost use Rattle.hr_progress.specs.Seen as seen;
ghost use Rattle.hr_progress.specs.Kept.{is_processed_at, processed_of, recounted, restarted, IsLeast, NoneLess, is_run, is_run_of, back_to_before, back_to_position, IsReady, AreReady};

use crate::attempt::{Attempt, Told, answer, answered, end, end_all, preempt, prepare, wait};
use crate::txn::{TxnState, close, phase_of, statements_of};
use hr_engine::TxnId;
use hr_history::{Job, Phase};
use indexmap::IndexMap;
use std::alloc::{AllocError, Global};

/// A replica.
pub struct Progress {
    pub lost: bool,
    pub convicted: bool,
    /// How many transactions it has committed.
    pub position: u64,
    /// Its last commit was answered Lost, and no restart followed.
    pub doubt: bool,
    pub out: Option<Job>,
    /// The transactions that it was given statements of, in the order of the first.
    pub attempts: IndexMap<TxnId, Attempt>,
    /// Those that have something to roll back here, in ascending order.
    pub touched: Vec<TxnId>,
    /// How many of the log, from its first on, are committed here, or have every statement answered here.
    pub processed: u64,
}

impl Drop for Progress {
    fn drop(self) {
        let Progress {
            lost: _lost,
            convicted: _convicted,
            position: _position,
            doubt: _doubt,
            out: _out,
            attempts: _attempts,
            touched: _touched,
            processed: _processed,
        } = self;
    }
}

/// So many replicas to which nothing has happened.
pub fn idle_replicas(alloc: Global, count: u32) -> Result<Vec<Progress>, AllocError>
    ensures { IfOk result (λ replicas. map plain_progress replicas.items ≡ replicate count idle_progress) }
{
    let mut replicas = Vec::new(alloc);
    'replicas: for _ in 0..count {
        replicas.push(Progress {
            lost: false,
            convicted: false,
            position: 0,
            doubt: false,
            out: None,
            attempts: IndexMap::new(alloc),
            touched: Vec::new(alloc),
            processed: 0,
        })?;
    }
    Ok(replicas)
}

// Whether a transaction is committed at a replica, or has every statement answered there.
fn is_processed(
    attempts: &IndexMap<TxnId, Attempt>,
    position: u64,
    txns: &[TxnState],
    txn: TxnId,
) -> bool
    ensures { result ≡ is_processed_at (map plain_txn txns.now) position (map plain_entry attempts.now.entries) txn }
{
    is_logged_by(phase_of(txns, txn), position)
        || answered(attempts, txn) == statements_of(txns, txn) as usize
}

/// Whether a phase is that of the log's transactions up to a place.
pub fn is_logged_by(phase: Phase, place: u64) -> bool
    ensures { result ≡ history.is_logged_by place phase }
{
    match phase {
        Phase::Logged(at) => at <= place,
        _ => false,
    }
}

/// How many of the log, from its first on, are processed at a replica. At least so many are.
pub fn processed_from(
    attempts: &IndexMap<TxnId, Attempt>,
    position: u64,
    txns: &[TxnState],
    log: &[TxnId],
    least: u64,
) -> u64
    requires { least ≤ processed_of (map plain_txn txns.now) log.now position (map plain_entry attempts.now.entries) }
    ensures { result ≡ processed_of (map plain_txn txns.now) log.now position (map plain_entry attempts.now.entries) }
{
    let mut count = least as usize;
    'log: while count < log.len() {
        if !is_processed(attempts, position, txns, log[count]) {
            break;
        }
        count += 1;
    }
    count as u64
}

/// A replica is convicted.
pub fn convict(replicas: &mut Vec<Progress>, replica: u32)
    requires { replica < length replicas.old.items }
    ensures value { map plain_progress replicas.new.items ≡ map_from (change_at replica to_convicted) 0 (map plain_progress replicas.old.items) }
    ensures room { AreReady replicas.old.items → AreReady replicas.new.items }
{
    let progress = &mut replicas[replica as usize];
    progress.convicted = true;
}

/// A transaction is to be rolled back at a replica, and to run again there.
pub fn preempt_at(replicas: &mut Vec<Progress>, replica: u32, txn: TxnId)
    requires { replica < length replicas.old.items }
    ensures value { map plain_progress replicas.new.items ≡ map_from (change_at replica (with_preempted txn)) 0 (map plain_progress replicas.old.items) }
    ensures room { AreReady replicas.old.items → AreReady replicas.new.items }
{
    let progress = &mut replicas[replica as usize];
    preempt(&mut progress.attempts, txn);
}

/// Counts anew how much of the log a replica has processed, which is no less than it is said to be.
fn recount_one(progress: &mut Progress, txns: &[TxnState], log: &[TxnId])
    requires { progress.old.processed ≤ processed_of (map plain_txn txns.now) log.now progress.old.position (map plain_entry progress.old.attempts.entries) }
    ensures value { plain_progress progress.new ≡ recounted (map plain_txn txns.now) log.now (plain_progress progress.old) }
    ensures room { IsReady progress.old → IsReady progress.new }
{
    progress.processed = processed_from(
        &progress.attempts,
        progress.position,
        txns,
        log,
        progress.processed,
    );
}

/// Counts anew how much of the log each replica has processed.
pub fn recount(replicas: &mut Vec<Progress>, txns: &[TxnState], log: &[TxnId])
    requires { NoneLess (map plain_txn txns.now) log.now (map plain_progress replicas.old.items) }
    ensures value { map plain_progress replicas.new.items ≡ map (recounted (map plain_txn txns.now) log.now) (map plain_progress replicas.old.items) }
    ensures room { AreReady replicas.old.items → AreReady replicas.new.items }
{
    'replicas: for place in 0..replicas.len() {
        recount_one(&mut replicas[place], txns, log);
    }
}

// A replica is restarted, and tells how many commits it has made.
fn restart(progress: &mut Progress, count: u64)
    requires { IsTrue progress.old.doubt → progress.old.position + 1 < 2 ^ 64 }
    ensures value { plain_progress progress.new ≡ with_restart count (plain_progress progress.old) }
    ensures room { IsReady progress.new }
{
    if progress.doubt && count == progress.position + 1 {
        progress.position += 1;
    }
    progress.lost = false;
    progress.doubt = false;
    progress.out = None;
}

/// A replica is restarted, and tells how many commits it has made.
pub fn restart_at(
    replicas: &mut Vec<Progress>,
    replica: u32,
    count: u64,
    txns: &[TxnState],
    log: &[TxnId],
)
    requires known { replica < length replicas.old.items }
    requires next { IsTrue (plain_replica_in (map plain_progress replicas.old.items) replica).doubt → (plain_replica_in (map plain_progress replicas.old.items) replica).position + 1 < 2 ^ 64 }
    requires least { IsLeast (map plain_txn txns.now) log.now (with_restart count (plain_replica_in (map plain_progress replicas.old.items) replica)) }
    ensures value { map plain_progress replicas.new.items ≡ map_from (change_at replica (restarted (map plain_txn txns.now) log.now count)) 0 (map plain_progress replicas.old.items) }
    ensures room { AreReady replicas.old.items → AreReady replicas.new.items }
{
    let progress = &mut replicas[replica as usize];
    restart(progress, count);
    recount_one(progress, txns, log);
}

/// How many transactions a replica has committed; of a number that none has, as of one to which nothing has happened.
pub fn position_of(replicas: &[Progress], replica: u32) -> u64
    ensures { result ≡ (plain_replica_in (map plain_progress replicas.now) replica).position }
{
    match replicas.get(replica as usize) {
        Some(progress) => progress.position,
        None => 0,
    }
}

/// How many of the log are processed at a replica; of a number that none has, as of one to which nothing has happened.
pub fn processed_of(replicas: &[Progress], replica: u32) -> u64
    ensures { result ≡ (plain_replica_in (map plain_progress replicas.now) replica).processed }
{
    match replicas.get(replica as usize) {
        Some(progress) => progress.processed,
        None => 0,
    }
}

/// Whether a replica is lost; of a number that none has, as of one to which nothing has happened.
pub fn lost_of(replicas: &[Progress], replica: u32) -> bool
    ensures { result ≡ (plain_replica_in (map plain_progress replicas.now) replica).lost }
{
    match replicas.get(replica as usize) {
        Some(progress) => progress.lost,
        None => false,
    }
}

/// Whether a replica is convicted; of a number that none has, as of one to which nothing has happened.
pub fn convicted_of(replicas: &[Progress], replica: u32) -> bool
    ensures { result ≡ (plain_replica_in (map plain_progress replicas.now) replica).convicted }
{
    match replicas.get(replica as usize) {
        Some(progress) => progress.convicted,
        None => false,
    }
}

/// Whether a replica's last commit is in doubt; of a number that none has, as of one to which nothing has happened.
pub fn doubt_of(replicas: &[Progress], replica: u32) -> bool
    ensures { result ≡ (plain_replica_in (map plain_progress replicas.now) replica).doubt }
{
    match replicas.get(replica as usize) {
        Some(progress) => progress.doubt,
        None => false,
    }
}

/// The job that is out at a replica; of a number that none has, as of one to which nothing has happened.
pub fn out_of(replicas: &[Progress], replica: u32) -> Option<Job>
    ensures { result ≡ (plain_replica_in (map plain_progress replicas.now) replica).out }
{
    match replicas.get(replica as usize) {
        Some(progress) => progress.out,
        None => None,
    }
}

/// Those that have something to roll back at a replica, in ascending order.
pub fn touched_of(replicas: &[Progress], replica: u32) -> &[TxnId]
    ensures { result.now ≡ (plain_replica_in (map plain_progress replicas.now) replica).touched }
{
    match replicas.get(replica as usize) {
        Some(progress) => &progress.touched,
        None => &[],
    }
}

/// How many statements of a transaction are answered in its attempt at a replica.
pub fn answered_at(replicas: &[Progress], replica: u32, txn: TxnId) -> usize
    ensures { result ≡ length (plain_attempt_in (plain_replica_in (map plain_progress replicas.now) replica).attempts txn).answers }
{
    match replicas.get(replica as usize) {
        Some(progress) => answered(&progress.attempts, txn),
        None => 0,
    }
}

/// The attempt of a transaction at a replica, where it has an entry there.
pub fn attempt_at(replicas: &[Progress], replica: u32, txn: TxnId) -> Option<&Attempt>
    ensures { option_map plain_attempt (option_copied result) ≡ lookup (nat_eq txn) (plain_replica_in (map plain_progress replicas.now) replica).attempts }
{
    match replicas.get(replica as usize) {
        Some(progress) => progress.attempts.get(&txn),
        None => None,
    }
}

/// The answers of a transaction's attempt at a replica.
pub fn answers_at(replicas: &[Progress], replica: u32, txn: TxnId) -> &[Told]
    ensures { result.now ≡ (plain_attempt_in (plain_replica_in (map plain_progress replicas.now) replica).attempts txn).answers }
{
    match attempt_at(replicas, replica, txn) {
        Some(attempt) => &attempt.answers,
        None => &[],
    }
}

/// The place among the replies of the last one to a transaction at a replica that told of waits, where no answer came
/// after it.
pub fn last_at(replicas: &[Progress], replica: u32, txn: TxnId) -> Option<usize>
    ensures { result ≡ (plain_attempt_in (plain_replica_in (map plain_progress replicas.now) replica).attempts txn).last }
{
    match attempt_at(replicas, replica, txn) {
        Some(attempt) => attempt.last,
        None => None,
    }
}

/// Whether a transaction runs at a replica, and began to before this place among the replies.
pub fn runs_since(replicas: &[Progress], replica: u32, place: usize, txn: TxnId) -> bool
    ensures { result ≡ seen.runs_since (plain_replica_in (map plain_progress replicas.now) replica).attempts place txn }
{
    match attempt_at(replicas, replica, txn) {
        Some(attempt) => !attempt.answers.is_empty() && attempt.began < place,
        None => false,
    }
}

/// Whether one of these runs at a replica, and began to before this place among the replies.
pub fn any_runs_since(replicas: &[Progress], replica: u32, place: usize, txns: &[TxnId]) -> bool
    ensures { result ≡ list_any (seen.runs_since (plain_replica_in (map plain_progress replicas.now) replica).attempts place) txns.now }
{
    'txns: for txn in txns {
        if runs_since(replicas, replica, place, *txn) {
            return true;
        }
    }
    false
}

/// Whether each of these runs at a replica, and began to before this place among the replies.
pub fn all_run_since(replicas: &[Progress], replica: u32, place: usize, txns: &[TxnId]) -> bool
    ensures { result ≡ list_all (seen.runs_since (plain_replica_in (map plain_progress replicas.now) replica).attempts place) txns.now }
{
    'txns: for txn in txns {
        if !runs_since(replicas, replica, place, *txn) {
            return false;
        }
    }
    true
}

/// The candidate: the first live replica from the one after the start of the search on, and round to that.
pub fn candidate_after(replicas: &[Progress], f: u32, start: u32) -> Option<u32>
    requires few { f ≤ 3 }
    requires known { start ≤ 2 * f }
    ensures { result ≡ primary.candidate_after f (live_of (map plain_progress replicas.now)) start }
{
    match first_live(replicas, start + 1, 2 * f + 1) {
        Some(replica) => Some(replica),
        None => first_live(replicas, 0, start + 1),
    }
}

// The first live one of the replicas from this one on, up to another and without that.
fn first_live(replicas: &[Progress], from: u32, to: u32) -> Option<u32>
    ensures { result ≡ find (live_of (map plain_progress replicas.now)) (range_with_len from (to - from)) }
{
    'replicas: for replica in from..to {
        if is_live(replicas, replica) {
            return Some(replica);
        }
    }
    None
}

// Whether a replica is neither lost nor convicted.
fn is_live(replicas: &[Progress], replica: u32) -> bool
    ensures { result ≡ live_of (map plain_progress replicas.now) replica }
{
    !lost_of(replicas, replica) && !convicted_of(replicas, replica)
}

/// How many transactions have an entry at a replica.
pub fn entry_count(replicas: &[Progress], replica: u32) -> usize
    ensures { result ≡ length (plain_replica_in (map plain_progress replicas.now) replica).attempts }
{
    match replicas.get(replica as usize) {
        Some(progress) => progress.attempts.len(),
        None => 0,
    }
}

/// The transaction whose entry at a replica has this place.
pub fn entry_at(replicas: &[Progress], replica: u32, place: usize) -> Option<TxnId>
    ensures { result ≡ slice_get (map key (plain_replica_in (map plain_progress replicas.now) replica).attempts) place }
{
    match replicas.get(replica as usize) {
        Some(progress) => key_at(&progress.attempts, place),
        None => None,
    }
}

// The transaction whose entry has this place.
fn key_at(attempts: &IndexMap<TxnId, Attempt>, place: usize) -> Option<TxnId>
    ensures { result ≡ slice_get (map key (map plain_entry attempts.now.entries)) place }
{
    match attempts.get_index(place) {
        Some((txn, _)) => Some(*txn),
        None => None,
    }
}

/// The place of a transaction's entry at a replica.
pub fn entry_place(replicas: &[Progress], replica: u32, txn: TxnId) -> Option<usize>
    ensures { result ≡ position (nat_eq txn) (map key (plain_replica_in (map plain_progress replicas.now) replica).attempts) }
{
    match replicas.get(replica as usize) {
        Some(progress) => progress.attempts.get_index_of(&txn),
        None => None,
    }
}

/// A statement of a transaction is answered at a replica. The newest reply has this place, and the answer stands at its
/// own or at an earlier one.
pub fn answer_at(
    replicas: &mut Vec<Progress>,
    replica: u32,
    txn: TxnId,
    told: Told,
    newest: usize,
    txns: &[TxnState],
    log: &[TxnId],
)
    requires known { replica < length replicas.old.items }
    requires room { AreReady replicas.old.items }
    requires out { is_run_of txn (plain_replica_in (map plain_progress replicas.old.items) replica).out ≡ true }
    requires least { IsLeast (map plain_txn txns.now) log.now (back_to_before (map plain_txn txns.now) txn (with_answered txn told newest (plain_replica_in (map plain_progress replicas.old.items) replica))) }
    ensures value { map plain_progress replicas.new.items ≡ map_from (change_at replica (λ q. recounted (map plain_txn txns.now) log.now (with_answered txn told newest q))) 0 (map plain_progress replicas.old.items) }
    ensures room { AreReady replicas.new.items }
{
    let progress = &mut replicas[replica as usize];
    answer(&mut progress.attempts, txn, told, newest);
    mark(&mut progress.touched, txn);
    progress.out = None;
    progress.processed = before_it(phase_of(txns, txn), progress.processed);
    recount_one(progress, txns, log);
}

/// A transaction is told of waits at a replica, by the reply at this place.
pub fn wait_at(replicas: &mut Vec<Progress>, replica: u32, txn: TxnId, reply: usize)
    requires known { replica < length replicas.old.items }
    requires room { AreReady replicas.old.items }
    requires out { is_run_of txn (plain_replica_in (map plain_progress replicas.old.items) replica).out ≡ true }
    ensures value { map plain_progress replicas.new.items ≡ map_from (change_at replica (with_waiting txn reply)) 0 (map plain_progress replicas.old.items) }
    ensures room { AreReady replicas.new.items }
{
    let progress = &mut replicas[replica as usize];
    wait(&mut progress.attempts, txn, reply);
    mark(&mut progress.touched, txn);
    progress.out = None;
}

/// A replica is lost, perhaps with a commit in doubt.
pub fn lose_at(
    replicas: &mut Vec<Progress>,
    replica: u32,
    in_doubt: bool,
    txns: &[TxnState],
    log: &[TxnId],
)
    requires known { replica < length replicas.old.items }
    requires room { AreReady replicas.old.items }
    requires least { IsLeast (map plain_txn txns.now) log.now (back_to_position (with_loss in_doubt (plain_replica_in (map plain_progress replicas.old.items) replica))) }
    ensures value { map plain_progress replicas.new.items ≡ map_from (change_at replica (λ q. recounted (map plain_txn txns.now) log.now (with_loss in_doubt q))) 0 (map plain_progress replicas.old.items) }
    ensures room { AreReady replicas.new.items }
{
    let progress = &mut replicas[replica as usize];
    end_all(&mut progress.attempts);
    progress.touched.clear();
    progress.lost = true;
    progress.doubt = in_doubt;
    progress.out = None;
    progress.processed = progress.position;
    recount_one(progress, txns, log);
}

/// A transaction is rolled back at a replica.
pub fn roll_back_at(
    replicas: &mut Vec<Progress>,
    replica: u32,
    txn: TxnId,
    txns: &[TxnState],
    log: &[TxnId],
)
    requires known { replica < length replicas.old.items }
    requires room { AreReady replicas.old.items }
    requires least { IsLeast (map plain_txn txns.now) log.now (back_to_before (map plain_txn txns.now) txn (with_ended txn (plain_replica_in (map plain_progress replicas.old.items) replica))) }
    ensures value { map plain_progress replicas.new.items ≡ map_from (change_at replica (λ q. recounted (map plain_txn txns.now) log.now (with_ended txn q))) 0 (map plain_progress replicas.old.items) }
    ensures room { AreReady replicas.new.items }
{
    let progress = &mut replicas[replica as usize];
    end(&mut progress.attempts, txn);
    close(&mut progress.touched, txn);
    progress.out = None;
    progress.processed = before_it(phase_of(txns, txn), progress.processed);
    recount_one(progress, txns, log);
}

/// A transaction is committed at a replica.
pub fn commit_at(
    replicas: &mut Vec<Progress>,
    replica: u32,
    txn: TxnId,
    txns: &[TxnState],
    log: &[TxnId],
)
    requires known { replica < length replicas.old.items }
    requires room { AreReady replicas.old.items }
    requires next { (plain_replica_in (map plain_progress replicas.old.items) replica).position + 1 < 2 ^ 64 }
    requires least { IsLeast (map plain_txn txns.now) log.now (with_commit txn (plain_replica_in (map plain_progress replicas.old.items) replica)) }
    ensures value { map plain_progress replicas.new.items ≡ map_from (change_at replica (λ q. recounted (map plain_txn txns.now) log.now (with_commit txn q))) 0 (map plain_progress replicas.old.items) }
    ensures room { AreReady replicas.new.items }
{
    let progress = &mut replicas[replica as usize];
    end(&mut progress.attempts, txn);
    close(&mut progress.touched, txn);
    progress.position += 1;
    progress.out = None;
    recount_one(progress, txns, log);
}

/// No job is out at a replica any more.
pub fn free_at(replicas: &mut Vec<Progress>, replica: u32)
    requires known { replica < length replicas.old.items }
    requires room { AreReady replicas.old.items }
    ensures value { map plain_progress replicas.new.items ≡ map_from (change_at replica to_free) 0 (map plain_progress replicas.old.items) }
    ensures room { AreReady replicas.new.items }
{
    let progress = &mut replicas[replica as usize];
    progress.out = None;
}

// Those of so many that come before a transaction, where it is logged.
fn before_it(phase: Phase, processed: u64) -> u64
    ensures { result ≡ moves.before_it phase processed }
{
    match phase {
        Phase::Logged(place) if place > 0 => processed.min(place - 1),
        _ => processed,
    }
}

// A transaction has something to roll back: it has its place among the others that have.
fn mark(touched: &mut Vec<TxnId>, txn: TxnId)
    requires { vec_len touched.old < vec_capacity touched.old }
    ensures { touched.new.items ≡ and_in_order txn touched.old.items }
{
    let place = lower_than(touched, txn);
    if stands_at(touched, place, txn) {
        return;
    }
    let Ok(()) = touched.insert(place, txn) else {
        unreachable!()
    };
}

// Whether a transaction stands at a place.
fn stands_at(txns: &[TxnId], place: usize, txn: TxnId) -> bool
    ensures { result ≡ primary.is_some_of txn (slice_get txns.now place) }
{
    match txns.get(place) {
        Some(other) => txn == *other,
        None => false,
    }
}

// How many of these, from the first on, are lower.
fn lower_than(txns: &[TxnId], txn: TxnId) -> usize
    ensures { result ≡ length (take_while (λ u. nat_lt u txn) txns.now) }
{
    let mut place = 0;
    'txns: while place < txns.len() {
        if txns[place] >= txn {
            return place;
        }
        place += 1;
    }
    place
}

/// A run of a transaction's statement is out at a replica: the transaction has an entry, and what its reply will take has
/// its place.
pub fn send_run(
    alloc: Global,
    replicas: &mut Vec<Progress>,
    replica: u32,
    txn: TxnId,
    index: u32,
) -> Result<(), AllocError>
    requires known { replica < length replicas.old.items }
    requires free { (plain_replica_in (map plain_progress replicas.old.items) replica).out ≡ None }
    requires few { length (plain_replica_in (map plain_progress replicas.old.items) replica).attempts ≤ MAX_SUBMITS }
    requires room { AreReady replicas.old.items }
    ensures ok { OnOk result (map plain_progress replicas.new.items ≡ map_from (change_at replica (with_run txn index)) 0 (map plain_progress replicas.old.items)) }
    ensures few { OnOk result (length (and_entry txn (plain_replica_in (map plain_progress replicas.old.items) replica).attempts) ≤ MAX_SUBMITS) }
    ensures err { OnErr result (map plain_progress replicas.new.items ≡ map plain_progress replicas.old.items) }
    ensures room { AreReady replicas.new.items }
{
    let progress = &mut replicas[replica as usize];
    progress.touched.reserve(1)?;
    prepare(alloc, &mut progress.attempts, txn)?;
    progress.out = Some(Job::Run(txn, index));
    Ok(())
}

/// A job that is no run is out at a replica.
pub fn send(replicas: &mut Vec<Progress>, replica: u32, job: Job)
    requires known { replica < length replicas.old.items }
    requires plain { is_run (Some job) ≡ false }
    requires room { AreReady replicas.old.items }
    ensures value { map plain_progress replicas.new.items ≡ map_from (change_at replica (with_out job)) 0 (map plain_progress replicas.old.items) }
    ensures room { AreReady replicas.new.items }
{
    let progress = &mut replicas[replica as usize];
    progress.out = Some(job);
}
