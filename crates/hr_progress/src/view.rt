//! All that the rules look at.
ghost use Rattle.std.specs.Prelude.{◌≡◌, ◌≤◌, None, [], length, IfOk};
ghost use Rattle.hr_history.specs.View.{view_of};
ghost use Rattle.hr_moves.specs.Sane.{IsSane};

mod calls;
mod comparisons;
mod entries;
mod follows;
mod gives;
mod places;
mod reads;
mod standing;

use crate::progress::{Progress, idle_replicas};
use crate::txn::TxnState;
use hr_engine::{RunReply, TxnId};
use hr_history::Fresh;
use std::alloc::{AllocError, Global};
use std::marker::Model;

/// All that the shepherd's rules look at, but the turn: the log, the transactions, the replicas, and the primary.
pub struct View {
    f: u32,
    log: Vec<TxnId>,
    /// Transaction T stands at the place T - 1.
    txns: Vec<TxnState>,
    replicas: Vec<Progress>,
    primary: Option<u32>,
    search_after: u32,
    /// The replies to all runs, in order.
    replies: Vec<RunReply>,
    fresh: Option<Fresh>,
    /// The open transactions, in ascending order.
    opened: Vec<TxnId>,
}

impl Drop for View {
    fn drop(self) {
        let View {
            f: _f,
            log: _log,
            txns: _txns,
            replicas: _replicas,
            primary: _primary,
            search_after: _search_after,
            replies: _replies,
            fresh: _fresh,
            opened: _opened,
        } = self;
    }
}

impl Model for View {
    ghost use Rattle.hr_history.specs.View.{View};

    ghost Value = { View };

    ghost use Rattle.hr_progress.specs.Seen.{seen};

    ghost view = { seen };

    ghost use Rattle.hr_progress.specs.Kept.{IsWhole};

    ghost invariant = { IsWhole };
}

impl View {
    /// The view before anything happened, of `2f + 1` replicas.
    pub fn new(alloc: Global, f: u32) -> Result<View, AllocError>
        requires few { f ≤ 3 }
        ensures { IfOk result (λ view. view ≡ view_of f []) }
    {
        Ok(View {
            f,
            log: Vec::new(alloc),
            txns: Vec::new(alloc),
            replicas: idle_replicas(alloc, 2 * f + 1)?,
            primary: Some(0),
            search_after: 0,
            replies: Vec::new(alloc),
            fresh: None,
            opened: Vec::new(alloc),
        })
    }

    /// Every view makes sense.
    pub fn sane(&self)
        ensures { IsSane self.now }
    {
        let _f = self.f;
    }

    /// How many transactions are decided.
    pub fn commits(&self) -> u64
        ensures { result ≡ length self.now.log }
    {
        self.log.len() as u64
    }

    /// The primary, if there is one.
    pub fn primary(&self) -> Option<u32>
        ensures { result ≡ self.now.primary }
    {
        self.primary
    }
}
