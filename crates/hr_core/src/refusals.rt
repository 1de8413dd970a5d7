//! Why transactions are refused.
ghost use Rattle.std.specs.Prelude.{◌≡◌, ◌≤◌, Some, length};
ghost use Rattle.hr_history.specs.Replies.{cause_told};
ghost use Rattle.hr_history.specs.Turn.{replies_to_runs};
ghost use Rattle.hr_moves.specs.Changes.{map_from, change_at};
ghost use Rattle.hr_ledger.specs.Chronicle.{history_in, view_in};
ghost use Rattle.hr_moves.specs.Fits.{IsOpen};
ghost use Rattle.hr_core.specs.Seats.{cause_kept, refused_for};

use crate::seat::Shown;
use hr_engine::TxnId;
use hr_history::CauseAt;
use hr_ledger::Ledger;

/// A cause, with what stands at the places that it names.
pub fn shown_cause(ledger: &Ledger, txn: TxnId, cause: CauseAt) -> Shown
    requires { IsOpen (view_in ledger.now) txn }
    ensures { cause_kept (replies_to_runs (history_in ledger.now)) result ≡ Some (cause_told txn cause (history_in ledger.now)) }
{
    match cause {
        CauseAt::Deadlock { at } => Shown::Deadlock(ledger.reply_place(at)),
        CauseAt::PrimaryChanged { from, why, .. } => Shown::PrimaryChanged { from, why },
        CauseAt::Differ { index, at, .. } => Shown::Differ {
            index,
            given: ledger.view().given_place(txn, index),
            agreed: ledger.reply_place(at),
        },
        CauseAt::PrimaryMemory { .. } => Shown::PrimaryMemory,
    }
}

/// Keeps why a transaction is refused.
pub fn keep(causes: &mut Vec<Option<Shown>>, txn: TxnId, why: Shown)
    requires first { 1 ≤ txn }
    requires last { txn ≤ length causes.old.items }
    ensures { causes.new.items ≡ map_from (change_at txn (refused_for why)) 1 causes.old.items }
{
    let place = (txn - 1) as usize;
    causes[place] = Some(why);
}
