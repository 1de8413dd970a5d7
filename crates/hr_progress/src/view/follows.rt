//! What changes by itself, behind a call in its turn. It takes no memory.
ghost use Rattle.std.specs.Prelude.{◌≡◌, ℕ, IsTrue};
ghost use Rattle.hr_history.specs.declared.cause.CauseAt.{CauseAt};
ghost use Rattle.hr_history.specs.declared.evidence.Evidence.{Evidence};
ghost use Rattle.hr_history.specs.declared.entry.Event.TheVariants as event;
ghost use Rattle.hr_history.specs.Primary as history;
ghost use Rattle.hr_history.specs.Processed.{attempt_in, live_in};
ghost use Rattle.hr_history.specs.Step.{view_step};
ghost use Rattle.hr_moves.specs.Sane.{IsReplica};
ghost use Rattle.hr_moves.specs.Fits.{IsOpen};

use crate::progress::{convict, preempt_at, recount};
use crate::txn::{close, set_phase};
use crate::view::View;
use hr_engine::TxnId;
use hr_history::Phase;

impl View {
    /// A transaction is decided: it is the next of the log.
    pub fn decide(&mut self, txn: TxnId)
        requires { IsOpen self.old txn }
        ensures { (place asks : ℕ) → self.new ≡ view_step self.old place asks (event.Decide txn) }
    {
        let View {
            log,
            txns,
            replicas,
            opened,
            ..
        } = self;
        close(opened, txn);
        set_phase(txns, txn, Phase::Logged(log.len() as u64 + 1));
        log.push_reserved(txn);
        recount(replicas, txns, log);
    }

    /// A transaction is refused.
    pub fn refuse(&mut self, txn: TxnId)
        requires { IsOpen self.old txn }
        ensures { (place asks : ℕ) (why : CauseAt) → self.new ≡ view_step self.old place asks (event.Refuse txn why) }
    {
        let View { txns, opened, .. } = self;
        set_phase(txns, txn, Phase::Refused);
        close(opened, txn);
    }

    /// A replica is convicted, and isn't the primary any more.
    pub fn convict(&mut self, replica: u32)
        requires { IsReplica self.old replica }
        ensures { (place asks : ℕ) (shown : Evidence) → self.new ≡ view_step self.old place asks (event.Convict replica shown) }
    {
        let View {
            replicas,
            primary,
            ..
        } = self;
        convict(replicas, replica);
        *primary = other_than(replica, *primary);
    }

    /// A replica becomes the primary.
    pub fn new_primary(&mut self, replica: u32)
        requires known { IsReplica self.old replica }
        requires live { IsTrue (live_in self.old replica) }
        ensures { (place asks : ℕ) → self.new ≡ view_step self.old place asks (event.NewPrimary replica) }
    {
        self.primary = Some(replica);
        self.search_after = replica;
    }

    /// A transaction is to be rolled back at a replica, and to run again there.
    pub fn preempt(&mut self, replica: u32, txn: TxnId)
        requires known { IsReplica self.old replica }
        requires touched { IsTrue (attempt_in self.old replica txn).touched }
        ensures { (place asks : ℕ) → self.new ≡ view_step self.old place asks (event.Preempt replica txn) }
    {
        let View { replicas, .. } = self;
        preempt_at(replicas, replica, txn);
    }
}

// The primary, unless it is this replica.
pub fn other_than(replica: u32, primary: Option<u32>) -> Option<u32>
    ensures { result ≡ history.other_than replica primary }
{
    match primary {
        Some(other) if other == replica => None,
        _ => primary,
    }
}
