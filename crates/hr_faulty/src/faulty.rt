ghost use Rattle.std.specs.Prelude.{◌≡◌, ◌+◌, ◌≤◌, ◌&&◌, ◌||◌, if◌then◌else◌, not, true, false, [], List, IfOk, IsTrue, Some, option_copied};
ghost use Rattle.hr_rel.specs.Database.{Database};
ghost use Rattle.hr_engine.specs.declared.reply.RunReply.TheVariants as reply;
ghost use Rattle.hr_base.specs.Counters.{shown};
ghost use Rattle.hr_engine.specs.Journal.{Call, Committed, RolledBack};
ghost use Rattle.hr_engine.specs.Backend.{AnswersCanonically, is_lost_run, is_lost_end};
ghost use Rattle.hr_faulty.specs.Script.{lies, names_calls};
ghost use Rattle.hr_faulty.specs.Told.{TellsRun, TellsEnd, TellsRestart, one_value, with_answer, with_position};
ghost use Rattle.hr_faulty.specs.Make.{make_over};
ghost use Rattle.hr_faulty.specs.Wraps.{ExtendsBy, Wraps};

use crate::script::{act_at, loss_of, position_of};
use crate::{Act, Fault, When};
use hr_engine::{Backend, EndReply, Lost, RunReply, TxnId};
use hr_rel::{Answer, Rows, RunError, Seq, Stmt, Value};
use std::alloc::{AllocError, Global};

/// A backend that does what its script says at the calls that the script names, over a backend that does the rest.
#[derive(Drop)]
pub struct Faulty<B> {
    inner: B,
    script: Seq<Fault>,
    calls: u64,
    losses: u64,
    lost: bool,
}

/// Whether no fault names call 2^64 - 1, at which the count of calls stands still, as [`Faulty::new`] requires.
pub fn names_calls(script: &[Fault]) -> bool
    ensures { result ≡ names_calls script.now }
{
    script.iter().all(|fault| fault.call < u64::MAX)
}

impl<B: Backend> Faulty<B> {
    /// Of two faults with one call number the first counts. `names_calls` tells whether a script is one.
    pub fn new(inner: B, script: Vec<Fault>) -> Faulty<B>
        requires { IsTrue (names_calls script.items) }
        ensures stands { (start : Database) → B.stands inner start [] → ⟦<Faulty<B> as Backend>⟧.stands result start [] }
        ensures make { ⟦<Faulty<B> as Backend>⟧.make result ≡ make_over (B.make inner) script.items }
        ensures honest { ⟦<Faulty<B> as Backend>⟧.is_honest result ≡ B.is_honest inner && not (lies script.items) }
        ensures lost { ⟦<Faulty<B> as Backend>⟧.is_lost result ≡ false }
        ensures losses { ⟦<Faulty<B> as Backend>⟧.losses result ≡ 0 }
    {
        Faulty {
            inner,
            script: Seq::from_vec(script),
            calls: 0,
            losses: 0,
            lost: false,
        }
    }

    fn count_call(&mut self)
        ensures { self.new ≡ record self.old { calls = shown (self.old.calls + 1) } }
    {
        self.calls = self.calls.saturating_add(1);
    }

    // Notes a reply Lost, if the reply is that.
    fn lose_if(&mut self, lost: bool)
        ensures lost { self.new ≡ record self.old { lost = self.old.lost || lost; losses = if lost then shown (self.old.losses + 1) else self.old.losses } }
        ensures later { self.old.losses ≤ self.new.losses }
    {
        if lost {
            self.lost = true;
            self.losses = self.losses.saturating_add(1);
        }
    }
}

impl<B: Backend> Backend for Faulty<B> {
    ghost stands = { λ f start journal. Wraps (B.stands f.inner) f.script f.calls f.lost start journal };

    ghost make = { λ f. make_over (B.make f.inner) f.script };

    ghost is_honest = { λ f. B.is_honest f.inner && not (lies f.script) };

    ghost is_lost = { λ f. f.lost };

    ghost losses = { λ f. f.losses };

    ghost base = { λ f. B.base f.inner };

    ghost use Rattle.hr_faulty.specs.MakeTells.{same_honesty};

    ghost honesty = { λ a b same. same_honesty B.make B.is_honest B.honesty a.inner b.inner a.script b.script same };

    ghost use Rattle.hr_faulty.specs.Losses.{legal_over};

    ghost legal = { λ f start journal honest stands.
        legal_over (B.stands f.inner) f.script f.calls f.lost (B.base f.inner) start journal (B.is_honest f.inner) (λ h within stood. B.legal f.inner start within h stood) honest stands };

    fn run(&mut self, alloc: Global, txn: TxnId, stmt: &Stmt) -> RunReply {
        self.count_call();
        if self.lost {
            return RunReply::Lost;
        }
        let act = act_at(self.script.as_slice(), self.calls);
        let reply = run_by(alloc, &mut self.inner, act, txn, stmt);
        self.lose_if(is_lost_run(&reply));
        reply
    }

    fn commit(&mut self, txn: TxnId) -> EndReply {
        self.count_call();
        if self.lost {
            return EndReply::Lost;
        }
        let act = act_at(self.script.as_slice(), self.calls);
        let reply = commit_by(&mut self.inner, loss_of(act), txn);
        self.lose_if(is_lost_end(reply));
        reply
    }

    fn rollback(&mut self, txn: TxnId) -> EndReply {
        self.count_call();
        if self.lost {
            return EndReply::Lost;
        }
        let act = act_at(self.script.as_slice(), self.calls);
        let reply = rollback_by(&mut self.inner, loss_of(act), txn);
        self.lose_if(is_lost_end(reply));
        reply
    }

    fn restart(&mut self) -> Result<u64, Lost> {
        self.count_call();
        let act = act_at(self.script.as_slice(), self.calls);
        let (loss, position) = (loss_of(act), position_of(act));
        let told = restart_by(&mut self.inner, loss, position, self.lost);
        self.lost = false;
        self.lose_if(told.is_err());
        told
    }

    // The script acts at no dump, so the backend within need be honest, and no more.
    fn dump(&self, alloc: Global) -> Result<Rows, AllocError>
        ensures honest { B.is_honest self.now.inner && not (lies self.now.script) ≡ true → IfOk result (λ rows. rows ≡ (B.base self.now.inner).tables) }
        ensures within { B.is_honest self.now.inner ≡ true → IfOk result (λ rows. rows ≡ (B.base self.now.inner).tables) }
    {
        self.inner.dump(alloc)
    }
}

fn is_lost_run(reply: &RunReply) -> bool
    ensures { result ≡ is_lost_run reply.now }
{
    matches!(reply, RunReply::Lost)
}

fn is_lost_end(reply: EndReply) -> bool
    ensures { result ≡ is_lost_end reply }
{
    matches!(reply, EndReply::Lost)
}

// A run, given the act at it.
fn run_by<B: Backend>(
    alloc: Global,
    inner: &mut B,
    act: Option<&Act>,
    txn: TxnId,
    stmt: &Stmt,
) -> RunReply
    ensures told { (calls : List Call) × ExtendsBy (B.stands inner.old) (B.stands inner.new) calls × TellsRun (option_copied act.entry) txn stmt.now result calls }
    ensures make { B.make inner.new ≡ B.make inner.old }
    ensures canonical { AnswersCanonically result }
    ensures base_at_no_memory { result ≡ reply.NoMemory → B.base inner.new ≡ B.base inner.old }
{
    match act {
        None => inner.run(alloc, txn, stmt),
        Some(act) => run_at(alloc, inner, act, txn, stmt),
    }
}

fn run_at<B: Backend>(alloc: Global, inner: &mut B, act: &Act, txn: TxnId, stmt: &Stmt) -> RunReply
    ensures told { (calls : List Call) × ExtendsBy (B.stands inner.old) (B.stands inner.new) calls × TellsRun (Some act.now) txn stmt.now result calls }
    ensures make { B.make inner.new ≡ B.make inner.old }
    ensures canonical { AnswersCanonically result }
    ensures base_at_no_memory { result ≡ reply.NoMemory → B.base inner.new ≡ B.base inner.old }
{
    match act {
        Act::Wrong(number) => run_wrong(alloc, inner, *number, txn, stmt),
        Act::Drop(count) => RunReply::Done(Answer::Count(*count)),
        Act::Early => run_early(alloc, inner, txn, stmt),
        Act::Block(named) => match copied(alloc, named) {
            Ok(named) => RunReply::Blocked(named),
            Err(_) => RunReply::NoMemory,
        },
        Act::Deadlock(cycle) => match copied(alloc, cycle) {
            Ok(cycle) => RunReply::Deadlock(cycle),
            Err(_) => RunReply::NoMemory,
        },
        Act::Fail => RunReply::Done(Answer::Failed(RunError::Overflow)),
        Act::Position(_) => inner.run(alloc, txn, stmt),
        Act::Lose(when) => run_lost(alloc, inner, *when, txn, stmt),
    }
}

fn run_lost<B: Backend>(
    alloc: Global,
    inner: &mut B,
    when: When,
    txn: TxnId,
    stmt: &Stmt,
) -> RunReply
    ensures told { (calls : List Call) × ExtendsBy (B.stands inner.old) (B.stands inner.new) calls × TellsRun (Some (Act.Lose when)) txn stmt.now result calls }
    ensures make { B.make inner.new ≡ B.make inner.old }
    ensures lost { result ≡ reply.Lost }
{
    match when {
        When::Before => RunReply::Lost,
        When::After => {
            let _reply = inner.run(alloc, txn, stmt);
            RunReply::Lost
        }
    }
}

// The lie is made before the call within, so that want of memory changes nothing.
fn run_wrong<B: Backend>(
    alloc: Global,
    inner: &mut B,
    number: i64,
    txn: TxnId,
    stmt: &Stmt,
) -> RunReply
    ensures told { (calls : List Call) × ExtendsBy (B.stands inner.old) (B.stands inner.new) calls × TellsRun (Some (Act.Wrong number)) txn stmt.now result calls }
    ensures make { B.make inner.new ≡ B.make inner.old }
    ensures canonical { AnswersCanonically result }
    ensures base_at_no_memory { result ≡ reply.NoMemory → B.base inner.new ≡ B.base inner.old }
{
    match one_value(alloc, number) {
        Ok(lie) => with_answer(inner.run(alloc, txn, stmt), lie),
        Err(_) => RunReply::NoMemory,
    }
}

fn run_early<B: Backend>(alloc: Global, inner: &mut B, txn: TxnId, stmt: &Stmt) -> RunReply
    ensures told { (calls : List Call) × ExtendsBy (B.stands inner.old) (B.stands inner.new) calls × TellsRun (Some Act.Early) txn stmt.now result calls }
    ensures make { B.make inner.new ≡ B.make inner.old }
    ensures canonical { AnswersCanonically result }
    ensures base_at_no_memory { result ≡ reply.NoMemory → B.base inner.new ≡ B.base inner.old }
{
    let reply = inner.run(alloc, txn, stmt);
    if let RunReply::Done(_) = &reply {
        let _end = inner.commit(txn);
    }
    reply
}

fn one_value(alloc: Global, number: i64) -> Result<Answer, AllocError>
    ensures { IfOk result (λ answer. answer ≡ one_value number) }
{
    let mut row = Seq::new(alloc);
    row.push(Value::Int(number))?;
    let mut rows = Seq::new(alloc);
    rows.push(row)?;
    Ok(Answer::Rows(rows))
}

fn copied(alloc: Global, list: &Seq<TxnId>) -> Result<Seq<TxnId>, AllocError>
    ensures { IfOk result (λ copy. copy ≡ list.now) }
{
    Ok(Seq::from_vec(list.as_slice().to_vec(alloc)?))
}

fn with_answer(reply: RunReply, lie: Answer) -> RunReply
    ensures { result ≡ with_answer lie reply }
{
    match reply {
        RunReply::Done(_) => RunReply::Done(lie),
        other => other,
    }
}

fn commit_by<B: Backend>(inner: &mut B, loss: Option<When>, txn: TxnId) -> EndReply
    ensures told { (calls : List Call) × ExtendsBy (B.stands inner.old) (B.stands inner.new) calls × TellsEnd loss (Committed txn) result calls }
    ensures make { B.make inner.new ≡ B.make inner.old }
{
    match loss {
        None => inner.commit(txn),
        Some(when) => commit_lost(inner, when, txn),
    }
}

fn commit_lost<B: Backend>(inner: &mut B, when: When, txn: TxnId) -> EndReply
    ensures told { (calls : List Call) × ExtendsBy (B.stands inner.old) (B.stands inner.new) calls × TellsEnd (Some when) (Committed txn) result calls }
    ensures make { B.make inner.new ≡ B.make inner.old }
{
    match when {
        When::Before => EndReply::Lost,
        When::After => {
            let _reply = inner.commit(txn);
            EndReply::Lost
        }
    }
}

fn rollback_by<B: Backend>(inner: &mut B, loss: Option<When>, txn: TxnId) -> EndReply
    ensures told { (calls : List Call) × ExtendsBy (B.stands inner.old) (B.stands inner.new) calls × TellsEnd loss (RolledBack txn) result calls }
    ensures make { B.make inner.new ≡ B.make inner.old }
{
    match loss {
        None => inner.rollback(txn),
        Some(when) => rollback_lost(inner, when, txn),
    }
}

fn rollback_lost<B: Backend>(inner: &mut B, when: When, txn: TxnId) -> EndReply
    ensures told { (calls : List Call) × ExtendsBy (B.stands inner.old) (B.stands inner.new) calls × TellsEnd (Some when) (RolledBack txn) result calls }
    ensures make { B.make inner.new ≡ B.make inner.old }
{
    match when {
        When::Before => EndReply::Lost,
        When::After => {
            let _reply = inner.rollback(txn);
            EndReply::Lost
        }
    }
}

// A restart, given the loss that comes with it, the count that is told in place of the one within, and whether the
// backend is lost.
fn restart_by<B: Backend>(
    inner: &mut B,
    loss: Option<When>,
    position: Option<u64>,
    lost: bool,
) -> Result<u64, Lost>
    ensures told { (calls : List Call) × ExtendsBy (B.stands inner.old) (B.stands inner.new) calls × TellsRestart loss position lost result calls }
    ensures make { B.make inner.new ≡ B.make inner.old }
{
    match loss {
        None => with_position(inner.restart(), position),
        Some(when) => restart_lost(inner, when, position, lost),
    }
}

fn restart_lost<B: Backend>(
    inner: &mut B,
    when: When,
    _position: Option<u64>,
    lost: bool,
) -> Result<u64, Lost>
    ensures told { (calls : List Call) × ExtendsBy (B.stands inner.old) (B.stands inner.new) calls × TellsRestart (Some when) _position lost result calls }
    ensures make { B.make inner.new ≡ B.make inner.old }
{
    match when {
        When::Before => Err(Lost),
        When::After if lost => Err(Lost),
        When::After => {
            let _told = inner.restart();
            Err(Lost)
        }
    }
}

fn with_position(told: Result<u64, Lost>, position: Option<u64>) -> Result<u64, Lost>
    ensures { result ≡ with_position position told }
{
    match (told, position) {
        (Ok(_), Some(count)) => Ok(count),
        (told, _) => told,
    }
}
