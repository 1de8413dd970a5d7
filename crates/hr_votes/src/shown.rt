//! What shows that a replica isn't correct.
ghost use Rattle.std.specs.Prelude.{◌≡◌, [], ◌∷◌};
ghost use Rattle.hr_base.specs.Lists.{first_some};
ghost use Rattle.hr_history.specs.Evidence as history;
ghost use Rattle.hr_history.specs.Jobs.{next_in_log};

use crate::waits::{is_sound_blocked, is_sound_deadlock};
use hr_engine::{RunReply, TxnId};
use hr_history::Evidence;
use hr_progress::View;

/// The evidence that a view shows against a replica: its next commit would differ from what was accepted; else its reply
/// in this turn tells of waits that can't be.
pub fn evidence(view: &View, replica: u32) -> Option<Evidence>
    ensures { result ≡ first_some (history.differs view.now replica ∷ history.bad_waits view.now replica ∷ []) }
{
    match differs(view, replica) {
        Some(shown) => Some(shown),
        None => bad_waits(view, replica),
    }
}

// The transaction that is next in the log is whole at a replica, and an answer there isn't the accepted one.
fn differs(view: &View, replica: u32) -> Option<Evidence>
    ensures { result ≡ history.differs view.now replica }
{
    let txn = next_in_log(view, replica)?;
    if view.is_whole(replica, txn) && !view.same_as_given(replica, txn) {
        Some(Evidence::Differs {
            txn,
            index: view.difference(replica, txn),
        })
    } else {
        None
    }
}

// The transaction that comes next in the log at a replica.
fn next_in_log(view: &View, replica: u32) -> Option<TxnId>
    ensures { result ≡ next_in_log view.now replica }
{
    view.log().get(view.position(replica) as usize).copied()
}

// A replica's reply in this turn tells of waits that can't be.
fn bad_waits(view: &View, replica: u32) -> Option<Evidence>
    ensures { result ≡ history.bad_waits view.now replica }
{
    let txn = asker(view, replica)?;
    match view.last_reply() {
        Some(RunReply::Blocked(named)) => {
            if is_sound_blocked(view, replica, txn, named.as_slice()) {
                None
            } else {
                Some(Evidence::BadBlocked { txn })
            }
        }
        Some(RunReply::Deadlock(cycle)) => {
            if is_sound_deadlock(view, replica, txn, cycle.as_slice()) {
                None
            } else {
                Some(Evidence::BadDeadlock { txn })
            }
        }
        _ => None,
    }
}

// The transaction to whose run a replica replied in this turn's call.
fn asker(view: &View, replica: u32) -> Option<TxnId>
    ensures { result ≡ history.asker_of replica view.now.fresh }
{
    match view.fresh() {
        Some(fresh) if fresh.replica == replica => Some(fresh.txn),
        _ => None,
    }
}
