//! Laws of footprints.
ghost use Rattle.std.specs.Prelude.{◌≡◌, ◌≢◌, ℕ, ℤ, true, false, ◌&&◌, Option, Some, List, [], ◌∷◌, slice_get};
ghost use Rattle.std.specs.Ordering.{int_cmp};
ghost use Rattle.hr_base.specs.Lists.{has};
ghost use Rattle.hr_rel.specs.declared.value.Value.{Value};
ghost use Rattle.hr_rel.specs.declared.expr.Op.{Op};
ghost use Rattle.hr_rel.specs.declared.expr.Op.TheVariants as op;
ghost use Rattle.hr_rel.specs.declared.expr.Pred.{Pred};
ghost use Rattle.hr_rel.specs.declared.stmt.Stmt.{Stmt};
ghost use Rattle.hr_rel.specs.declared.stmt.SelectStmt.{SelectStmt};
ghost use Rattle.hr_rel.specs.Database.{Database, key_of};
ghost use Rattle.hr_rel.specs.Kinds.{fits_i64};
ghost use Rattle.hr_rel.specs.Holds.{IsOrdered};
ghost use Rattle.hr_meaning.specs.Truth.{Tuple, passes, is_kept};
ghost use Rattle.hr_meaning.specs.Serial.{play, serial_answers, database_after};
ghost use Rattle.hr_parts.specs.declared.keys.Keys.{Keys};
ghost use Rattle.hr_parts.specs.Parts.{Part, row_at, Agree, Within, Apart, are_apart};
ghost use Rattle.hr_parts.specs.Footprints.{Covers, table_parts, tables_of};
ghost use Rattle.hr_parts.specs.Keys.{has_in, common, spanning, keys_to, kept_keys, select_keys, key_parts, keys_of_all};
ghost use Rattle.hr_parts.specs.Attempts.{Attempts, ArePairwiseApart, AreSome, alone_answers, attempts_of};

/// Two footprints are apart where no two of their parts may share a row that one of them may change.
pub fn apart_by_test()
    ensures { (parts others : List Part) → are_apart parts others ≡ true → Apart parts others }
{}

/// Parts that cover a statement are a footprint of it.
pub fn covers_is_enough()
    ensures { (parts : List Part) (s : Stmt) → Covers parts s → Within parts (s ∷ []) }
{}

/// The tables that statements read or change, whole, are a footprint of them.
pub fn tables_are_footprints()
    ensures one { (s : Stmt) → Within (table_parts s) (s ∷ []) }
    ensures all { (stmts : List Stmt) → Within (tables_of stmts) stmts }
{}

/// Whatever a statement keeps has its keys in the statement's intervals: each row of a SELECT's row or pair in that of its
/// table entry, and each row that an UPDATE or a DELETE changes in the one of its condition.
pub fn kept_in_the_intervals()
    ensures select { (s : SelectStmt) (rows : Tuple) → (is_kept s.on rows && is_kept s.filter rows) ≡ true → (entry : ℕ) (row : List Value) (k : ℤ) → slice_get rows entry ≡ Some row
        → key_of row ≡ Some k → fits_i64 k ≡ true → has_in (select_keys entry s) k ≡ true }
    ensures changed { (condition : Option Pred) (row : List Value) (k : ℤ) → is_kept condition (row ∷ []) ≡ true → key_of row ≡ Some k → fits_i64 k ≡ true
        → has_in (kept_keys 0 condition) k ≡ true }
{}

/// The intervals of keys that statements read or change are a footprint of them.
pub fn intervals_are_footprints()
    ensures one { (s : Stmt) → Within (key_parts s) (s ∷ []) }
    ensures all { (stmts : List Stmt) → Within (keys_of_all stmts) stmts }
{}

/// The intervals have these keys and no others: that of a comparison those that pass it, but for `<>`, which leaves all; that of
/// AND those of both; and that of OR is the least interval with the ends of both.
pub fn intervals_are_exact()
    ensures compared { (o : Op) (n k : ℤ) → o ≢ op.Ne → fits_i64 k ≡ true → has_in (keys_to o n) k ≡ passes o (int_cmp k n) }
    ensures both { (a b : Option Keys) (k : ℤ) → has_in (common a b) k ≡ (has_in a k && has_in b k) }
    ensures least { (a b c : Keys) → has_in (Some c) a.low ≡ true → has_in (Some c) a.high ≡ true → has_in (Some c) b.low ≡ true → has_in (Some c) b.high ≡ true
        → (k : ℤ) → has_in (spanning (Some a) (Some b)) k ≡ true → has_in (Some c) k ≡ true }
{}

/// A database in order is known by its catalog and by its rows, key by key.
pub fn known_by_its_rows()
    ensures { (d e : Database) → IsOrdered d → IsOrdered e → d.catalog ≡ e.catalog → ((t : ℕ) (k : ℤ) → row_at d t k ≡ row_at e t k) → d ≡ e }
{}

/// Two lists of statements whose footprints are apart may be played in either order: each answers the same, and the
/// database in the end is the same.
pub fn either_order()
    ensures database { (parts others : List Part) (a b : List Stmt) → Within parts a → Within others b → Apart parts others → (db : Database) → IsOrdered db
        → (play (play db a).after b).after ≡ (play (play db b).after a).after }
    ensures second { (parts others : List Part) (a b : List Stmt) → Within parts a → Within others b → Apart parts others → (db : Database) → IsOrdered db
        → (play (play db a).after b).answers ≡ (play db b).answers }
    ensures first { (parts others : List Part) (a b : List Stmt) → Within parts a → Within others b → Apart parts others → (db : Database) → IsOrdered db
        → (play (play db b).after a).answers ≡ (play db a).answers }
{}

/// Transactions whose footprints are apart pairwise: those of them that run, played one after another in any order, answer
/// as each of them answers alone on the database that they began with, and what one of them sees stays as it was, whichever
/// others are played.
pub fn alone_on_the_base()
    ensures answers { (a : Attempts) → ArePairwiseApart a → (db : Database) → IsOrdered db → (ts : List ℕ) → AreSome a ts
        → serial_answers db (attempts_of a ts) ≡ alone_answers a db ts }
    ensures seen { (a : Attempts) → ArePairwiseApart a → (db : Database) → IsOrdered db → (ts : List ℕ) → AreSome a ts → (u : ℕ) → a.runs u ≡ true → has ts u ≡ false
        → Agree (a.parts u) (database_after db (attempts_of a ts)) db }
{}
