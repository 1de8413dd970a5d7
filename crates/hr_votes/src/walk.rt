//! The walk along waits: whom those are waiting for that were found, until nobody new is found. Each wait is looked at once.
ghost use Rattle.std.specs.Prelude.{◌≡◌, ◌↔◌, ◌⊎◌, ℕ, List, true, false, [], ◌∷◌, ◌++◌, IsTrue};
ghost use Rattle.hr_base.specs.Lists.{has};
ghost use Rattle.hr_history.specs.Processed.{wait_in};
ghost use Rattle.hr_moves.specs.Kept.{entries_in};
ghost use Rattle.hr_votes.specs.Walked.{found_of, IsWalk, IsKnown, GrowsBy, LeadsOn, StaysClear};

use hr_base::limits::MAX_SUBMITS;
use hr_engine::TxnId;
use hr_progress::View;

/// How many entries a replica has at most: each is of a transaction that a statement was submitted of.
const MAX_ENTRIES: usize = MAX_SUBMITS as usize;

/// A walk along waits.
#[derive(Drop)]
struct Walk {
    /// Which of the replica's entries are of transactions that were found, by the places of these entries.
    marks: [bool; MAX_ENTRIES],
    /// Those that were found, in the order of finding.
    queue: [TxnId; MAX_ENTRIES],
    /// How many were found.
    found: usize,
}

/// Whether a chain of waits leads from one of these to the asker, who isn't one of them.
pub fn leads_to(view: &View, replica: u32, named: &[TxnId], asker: TxnId) -> bool
    requires { has named.now asker ≡ false }
    ensures { IsTrue result ↔ LeadsOn (wait_in view.now replica) named.now asker }
{
    let mut walk = Walk::new();
    walk.find_all(view, replica, named);
    let mut next = 0;
    'walk: while next < walk.found {
        let txn = walk.queue[next];
        if walk.follow(view, replica, txn, asker) {
            return true;
        }
        next += 1;
    }
    false
}

impl Walk {
    // A walk that found nobody yet.
    fn new() -> Walk
        ensures empty { found_of result ≡ [] }
        ensures walk { (entries : List ℕ) → IsWalk entries result }
    {
        Walk {
            marks: [false; MAX_ENTRIES],
            queue: [0; MAX_ENTRIES],
            found: 0,
        }
    }

    // Finds all of these.
    fn find_all(&mut self, view: &View, replica: u32, txns: &[TxnId])
        requires { IsWalk (entries_in view.now replica) self.old }
        ensures walk { IsWalk (entries_in view.now replica) self.new }
        ensures grows { GrowsBy (has txns.now) (found_of self.old) (found_of self.new) }
        ensures known { (t : ℕ) → has txns.now t ≡ true → IsKnown (entries_in view.now replica) (found_of self.new) t }
    {
        'txns: for txn in txns {
            self.find(view, replica, *txn);
        }
    }

    // Finds all for whom a transaction waits, up to the asker. Whether that is one of them.
    fn follow(&mut self, view: &View, replica: u32, txn: TxnId, asker: TxnId) -> bool
        requires { IsWalk (entries_in view.now replica) self.old }
        ensures walk { IsWalk (entries_in view.now replica) self.new }
        ensures grows { GrowsBy (has (wait_in view.now replica txn)) (found_of self.old) (found_of self.new) }
        ensures asker { result ≡ true → has (wait_in view.now replica txn) asker ≡ true }
        ensures known { result ≡ false → StaysClear (entries_in view.now replica) asker (found_of self.new) (has (wait_in view.now replica txn)) }
    {
        let told = view.told(replica, txn);
        'told: for other in told {
            if !view.still_waits(replica, txn, *other) {
                continue;
            }
            if *other == asker {
                return true;
            }
            self.find(view, replica, *other);
        }
        false
    }

    // Finds a transaction, unless it was found before. One without an entry waits for nobody.
    fn find(&mut self, view: &View, replica: u32, txn: TxnId)
        requires { IsWalk (entries_in view.now replica) self.old }
        ensures walk { IsWalk (entries_in view.now replica) self.new }
        ensures grows { (found_of self.new ≡ found_of self.old) ⊎ (found_of self.new ≡ found_of self.old ++ txn ∷ []) }
        ensures known { IsKnown (entries_in view.now replica) (found_of self.new) txn }
    {
        if let Some(place) = view.entry_place(replica, txn) {
            view.entries(replica);
            if !self.marks[place] {
                self.marks[place] = true;
                self.queue[self.found] = txn;
                self.found += 1;
            }
        }
    }
}
