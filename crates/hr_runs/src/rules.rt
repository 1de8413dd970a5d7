//! A view of three replicas, a few events of it, and what the rules in code say then.
ghost use Rattle.std.specs.Prelude.{◌≡◌};
ghost use Rattle.hr_history.specs.Transactions as history;

use crate::numbers::numbers_of;
use hr_base::limits::MAX_STATEMENTS;
use hr_engine::TxnId;
use hr_pool::{next, preempts};
use hr_primary::{candidate, caught_up};
use hr_progress::{Phase, View};
use hr_replay::{missed, settle};
use hr_votes::{evidence, tally};
use std::alloc::{AllocError, Global};

#[derive(Drop)]
pub struct Rules {
    view: View,
}

impl Rules {
    /// Nothing has happened.
    pub fn new(alloc: Global) -> Result<Rules, AllocError> {
        Ok(Rules {
            view: View::new(alloc, 1)?,
        })
    }

    /// Takes a line: an event, or a question, which is answered.
    pub fn take(&mut self, alloc: Global, out: &mut String, line: &str) -> Result<(), AllocError> {
        let (word, rest) = line.split_once(' ').unwrap_or((line, ""));
        let numbers = numbers_of(alloc, rest)?;
        match (word, numbers.as_slice()) {
            ("candidate", []) => write!(out, "{:?}", candidate(&self.view)),
            ("tally", [txn]) => write!(out, "{:?}", tally(&self.view, u64::from(*txn))),
            ("replica", [replica]) => self.push_replica(out, *replica),
            ("settle", [count]) => { write!(out, "{:?}", settle(&self.view, 0, u64::from(*count))) }
            (_, numbers) => {
                self.happen(alloc, word, numbers)?;
                out.push_str("done")
            }
        }
    }

    // What the rules say of a replica.
    fn push_replica(&self, out: &mut String, replica: u32) -> Result<(), AllocError> {
        let view = &self.view;
        if replica > 2 * view.f() {
            return out.push_str("no such replica");
        }
        write!(
            out,
            "job {:?}, out {:?}",
            next(view, replica),
            view.out(replica)
        )?;
        write!(out, ", to preempt {:?}", preempts(view, replica))?;
        write!(out, ", evidence {:?}", evidence(view, replica))?;
        let missed = missed(view, replica);
        write!(
            out,
            ", missed {missed}, caught up {}",
            caught_up(view, replica)
        )
    }

    // An event, where it fits.
    fn happen(&mut self, alloc: Global, word: &str, numbers: &[u32]) -> Result<(), AllocError> {
        match (word, numbers) {
            ("view", []) => *self = Rules::new(alloc)?,
            ("begin", [session]) => self.view.begin(alloc, *session)?,
            ("take", []) => self.take_job(alloc)?,
            (_, [txn, asks @ ..]) => self.end(word, u64::from(*txn), asks)?,
            _ => {}
        }
        Ok(())
    }

    // Replica 0 is given its job, if it has one.
    fn take_job(&mut self, alloc: Global) -> Result<(), AllocError> {
        match next(&self.view, 0) {
            Some(job) => self.view.take(alloc, 0, job),
            None => Ok(()),
        }
    }

    // An event of an open transaction.
    fn end(&mut self, word: &str, txn: TxnId, asks: &[u32]) -> Result<(), AllocError> {
        if !is_open(self.view.phase(txn)) {
            return Ok(());
        }
        match (word, asks) {
            ("submit", []) if self.view.statements(txn) < MAX_STATEMENTS => self.view.submit(txn)?,
            ("ask", [asks]) => self.view.ask_commit(txn, u64::from(*asks)),
            ("decide", []) => self.view.decide(txn),
            ("refuse", []) => self.view.refuse(txn),
            _ => {}
        }
        Ok(())
    }
}

fn is_open(phase: Phase) -> bool
    ensures { result ≡ history.is_open phase }
{
    match phase {
        Phase::Active | Phase::Asked(_) => true,
        Phase::Logged(_) | Phase::RolledBack | Phase::Refused => false,
    }
}
