//! What sessions are told, copied out: what is kept by a place among the replies becomes what stands there.
ghost use Rattle.std.specs.Prelude.{◌≡◌, Some, IfOk, OnErr, IsTrue, is_some, option_copied};
ghost use Rattle.hr_history.specs.declared.cause.Cause.{Cause};
ghost use Rattle.hr_history.specs.Replies.{ReplyState};
ghost use Rattle.hr_core.specs.Seats.{answer_in, cycle_in, cause_kept, state_kept};
ghost use Rattle.hr_core.specs.Copies.{reply_found, reply_in};

use crate::seat::{Seat, Shown};
use hr_engine::{RunReply, TxnId};
use hr_history::{Cause, Reply};
use hr_rel::{Answer, Seq, TryCopy};
use std::alloc::{AllocError, Global};

/// The reply that a seat was told, if it was told one. Wants memory only where it was.
pub fn reply_of(
    alloc: Global,
    replies: &[RunReply],
    seat: Seat,
) -> Result<Option<Reply>, AllocError>
    ensures ok { IfOk result (λ reply. (state : ReplyState) → state_kept replies.now seat ≡ Some state → reply ≡ reply_in state) }
    ensures err { OnErr result ((state : ReplyState) → state_kept replies.now seat ≡ Some state → IsTrue (is_some (reply_in state))) }
{
    match seat {
        Seat::NothingAsked => Ok(None),
        Seat::Waiting => Ok(None),
        Seat::Answered(place) => {
            let answer = answer_at(alloc, replies, Some(place))?;
            Ok(Some(Reply::Answered(answer)))
        }
        Seat::Committed(place) => Ok(Some(Reply::Committed(place))),
        Seat::Refused(why) => {
            let cause = cause_of(alloc, replies, why)?;
            Ok(Some(Reply::Refused(cause)))
        }
    }
}

/// The cause that is kept.
pub fn cause_of(alloc: Global, replies: &[RunReply], why: Shown) -> Result<Cause, AllocError>
    ensures { IfOk result (λ cause. (told : Cause) → cause_kept replies.now why ≡ Some told → cause ≡ told) }
{
    match why {
        Shown::Deadlock(place) => {
            let cycle = cycle_at(alloc, replies, place)?;
            Ok(Cause::Deadlock(cycle))
        }
        Shown::PrimaryChanged { from, why } => Ok(Cause::PrimaryChanged { from, why }),
        Shown::Differ {
            index,
            given,
            agreed,
        } => {
            let given = answer_at(alloc, replies, given)?;
            let agreed = answer_at(alloc, replies, agreed)?;
            Ok(Cause::Differ {
                index,
                given,
                agreed,
            })
        }
        Shown::PrimaryMemory => Ok(Cause::PrimaryMemory),
    }
}

// The answer of the reply at a place.
fn answer_at(
    alloc: Global,
    replies: &[RunReply],
    place: Option<usize>,
) -> Result<Answer, AllocError>
    ensures { IfOk result (λ answer. answer ≡ answer_in (reply_found replies.now place)) }
{
    match reply_at(replies, place) {
        Some(reply) => answer_of(alloc, reply),
        None => Ok(Answer::Count(0)),
    }
}

fn answer_of(alloc: Global, reply: &RunReply) -> Result<Answer, AllocError>
    ensures { IfOk result (λ answer. answer ≡ answer_in (Some reply.now)) }
{
    match reply {
        RunReply::Done(answer) => answer.try_copy(alloc),
        _ => Ok(Answer::Count(0)),
    }
}

// The cycle of the reply at a place.
fn cycle_at(
    alloc: Global,
    replies: &[RunReply],
    place: Option<usize>,
) -> Result<Seq<TxnId>, AllocError>
    ensures { IfOk result (λ cycle. cycle ≡ cycle_in (reply_found replies.now place)) }
{
    match reply_at(replies, place) {
        Some(reply) => cycle_of(alloc, reply),
        None => Ok(Seq::new(alloc)),
    }
}

fn cycle_of(alloc: Global, reply: &RunReply) -> Result<Seq<TxnId>, AllocError>
    ensures { IfOk result (λ cycle. cycle ≡ cycle_in (Some reply.now)) }
{
    match reply {
        RunReply::Deadlock(cycle) => copied(alloc, cycle.as_slice()),
        _ => Ok(Seq::new(alloc)),
    }
}

fn copied(alloc: Global, txns: &[TxnId]) -> Result<Seq<TxnId>, AllocError>
    ensures { IfOk result (λ copy. copy ≡ txns.now) }
{
    let mut copy = Vec::new(alloc);
    copy.extend_from_slice(txns)?;
    Ok(Seq::from_vec(copy))
}

// The reply at a place, if a place is kept and a reply stands there.
fn reply_at(replies: &[RunReply], place: Option<usize>) -> Option<&RunReply>
    ensures { option_copied result ≡ reply_found replies.now place }
{
    match place {
        Some(place) => replies.get(place),
        None => None,
    }
}
