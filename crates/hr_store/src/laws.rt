//! What the words of the contracts come to, for a transaction and for the others.
ghost use Rattle.std.specs.Prelude.{◌≡◌, ◌==◌, ℕ, ℤ, false, true, Some, None};
ghost use Rattle.std.specs.List.{find};
ghost use Rattle.hr_store.specs.declared.ending.Ending.TheVariants.{Commit, Rollback};
ghost use Rattle.hr_store.specs.Places.{belongs_at};
ghost use Rattle.hr_store.specs.Cells.{is_pending_of, seen_in, ended, forgotten};
ghost use Rattle.hr_store.specs.Changes.{is_key_at, after_put, after_remove};

/// A put or a remove leaves what is committed.
#[tactic(auto, using(crate::proofs::ViewLaws::put_committed, crate::proofs::ViewLaws::remove_committed))]
pub fn writes_commit_nothing()
    ensures put { (txn t : ℕ) (rows : _) (q : _) (cell : _) → (after_put txn t rows q cell).committed ≡ cell.committed }
    ensures remove { (txn t : ℕ) (keys : _) (q : _) (cell : _) → (after_remove txn t keys q cell).committed ≡ cell.committed }
{}

/// A transaction sees what it has put, and doesn't see what it has removed.
#[tactic(auto, using(crate::proofs::ViewLaws::put_seen, crate::proofs::ViewLaws::remove_seen))]
pub fn a_writer_sees_its_writes()
    ensures put { (txn t : ℕ) (rows : _) (q : _) (cell : _) (row : _) → find (belongs_at t q) rows ≡ Some row → seen_in txn (after_put txn t rows q cell) ≡ Some row }
    ensures remove { (txn t : ℕ) (keys : _) (q : _) (cell : _) → is_key_at t keys q ≡ true → seen_in txn (after_remove txn t keys q cell) ≡ None }
{}

/// Another transaction sees no write, where nothing there is its own.
#[tactic(auto, using(crate::proofs::ViewLaws::put_unseen, crate::proofs::ViewLaws::remove_unseen))]
pub fn others_see_no_write()
    ensures put { (txn u t : ℕ) (rows : _) (q : _) (cell : _) → (txn == u) ≡ false → is_pending_of u cell ≡ false → seen_in u (after_put txn t rows q cell) ≡ seen_in u cell }
    ensures remove { (txn u t : ℕ) (keys : _) (q : _) (cell : _) → (txn == u) ≡ false → is_pending_of u cell ≡ false → seen_in u (after_remove txn t keys q cell) ≡ seen_in u cell }
{}

/// After a commit what its transaction saw is committed. A rollback leaves what is committed, and once all that is pending
/// is forgotten, everybody sees it.
#[tactic(auto, using(crate::proofs::ViewLaws::commit_seen, crate::proofs::ViewLaws::rollback_committed))]
pub fn what_was_seen_is_committed()
    ensures commit { (txn : ℕ) (cell : _) → (ended Commit txn cell).committed ≡ seen_in txn cell }
    ensures rollback { (txn : ℕ) (cell : _) → (ended Rollback txn cell).committed ≡ cell.committed }
    ensures forget { (u : ℕ) (cell : _) → seen_in u (forgotten cell) ≡ cell.committed }
{}
