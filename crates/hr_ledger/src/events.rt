//! Events as they are stored.
ghost use Rattle.std.specs.Prelude.{◌≡◌, ℕ, List, length, IsTrue};
ghost use Rattle.hr_rel.specs.declared.stmt.Stmt.{Stmt};
ghost use Rattle.hr_engine.specs.declared.reply.RunReply.{RunReply};
ghost use Rattle.hr_history.specs.declared.entry.Event.TheVariants as event;
ghost use Rattle.hr_history.specs.Turn.{next_replies};
ghost use Rattle.hr_due.specs.FollowUps as follow;
ghost use Rattle.hr_entries.specs.Entries.{event_of, is_within};

use hr_due::FollowUp;
use hr_entries::StoredEvent;
use hr_history::JobReply;

/// A reply, where so many replies to runs were told before.
pub fn given(replica: u32, reply: &JobReply, told: usize) -> StoredEvent
    ensures is { (statements : List Stmt) (replies : List RunReply) → length replies ≡ told → event_of statements (next_replies (event.Give replica reply.now) replies) result ≡ event.Give replica reply.now }
    ensures within { (n : ℕ) (replies : List RunReply) → length replies ≡ told → IsTrue (is_within n (length (next_replies (event.Give replica reply.now) replies)) result) }
{
    match reply {
        JobReply::Ran(_) => StoredEvent::Ran { replica, at: told },
        JobReply::Ended(reply) => StoredEvent::Ended {
            replica,
            reply: *reply,
        },
        JobReply::StillLost => StoredEvent::StillLost { replica },
    }
}

/// What follows.
pub fn followed(next: FollowUp) -> StoredEvent
    ensures is { (statements : List Stmt) (replies : List RunReply) → event_of statements replies result ≡ follow.event_of next }
    ensures within { (n m : ℕ) → IsTrue (is_within n m result) }
{
    match next {
        FollowUp::Decide { txn } => StoredEvent::Decide { txn },
        FollowUp::Refuse { txn, cause } => StoredEvent::Refuse { txn, cause },
        FollowUp::Convict { replica, evidence } => StoredEvent::Convict { replica, evidence },
        FollowUp::NewPrimary { replica } => StoredEvent::NewPrimary { replica },
        FollowUp::Preempt { replica, txn } => StoredEvent::Preempt { replica, txn },
    }
}
