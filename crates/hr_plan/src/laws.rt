//! What follows for engines.
ghost use Rattle.std.specs.Prelude.{◌≡◌, ℕ, true, not, ◌||◌, List, [], ◌∷◌};
ghost use Rattle.std.specs.List.{list_all};
ghost use Rattle.hr_rel.specs.declared.value.Value.{Value};
ghost use Rattle.hr_rel.specs.declared.catalog.Catalog.{Catalog};
ghost use Rattle.hr_rel.specs.declared.stmt.Stmt.TheVariants as stmt;
ghost use Rattle.hr_rel.specs.declared.stmt.SelectStmt.{SelectStmt};
ghost use Rattle.hr_rel.specs.declared.stmt.InsertStmt.{InsertStmt};
ghost use Rattle.hr_rel.specs.declared.stmt.UpdateStmt.{UpdateStmt};
ghost use Rattle.hr_rel.specs.declared.stmt.DeleteStmt.{DeleteStmt};
ghost use Rattle.hr_rel.specs.Database.{columns_of};
ghost use Rattle.hr_rel.specs.Holds.{has_number_key};
ghost use Rattle.hr_meaning.specs.Truth.{Tuple, is_kept};
ghost use Rattle.hr_locks.specs.declared.need.Need.{Need};
ghost use Rattle.hr_parts.specs.Parts.{Apart};
ghost use Rattle.hr_plan.specs.declared.span.Span.{Span};
ghost use Rattle.hr_plan.specs.Needs.{no_conflict, parts_of};
ghost use Rattle.hr_plan.specs.Paths.{path_of, finds, is_stored};

/// Needs that don't conflict share no key that one of them may change.
pub fn needs_are_apart()
    ensures { (needs others : List (Need Span)) → no_conflict needs others ≡ true → Apart (parts_of needs) (parts_of others) }
{}

/// A path finds each row of the first table entry that the statement keeps, alone or in a pair, or that it changes. The row is
/// one that a table of the program may have: it fits its columns, and its texts have at most 64 printable bytes.
pub fn paths_find_what_is_kept()
    ensures select { (catalog : Catalog) (s : SelectStmt) (t : ℕ) (ts : List ℕ) (row : List Value) (others : Tuple) → s.tables ≡ t ∷ ts → is_stored (columns_of catalog t) row ≡ true
        → is_kept s.on (row ∷ others) ≡ true → is_kept s.filter (row ∷ others) ≡ true → finds (path_of catalog (stmt.Select s)) row ≡ true }
    ensures update { (catalog : Catalog) (s : UpdateStmt) (row : List Value) → is_stored (columns_of catalog s.table) row ≡ true → is_kept s.filter (row ∷ []) ≡ true
        → finds (path_of catalog (stmt.Update s)) row ≡ true }
    ensures delete { (catalog : Catalog) (s : DeleteStmt) (row : List Value) → is_stored (columns_of catalog s.table) row ≡ true → is_kept s.filter (row ∷ []) ≡ true
        → finds (path_of catalog (stmt.Delete s)) row ≡ true }
    ensures insert { (catalog : Catalog) (s : InsertStmt) → list_all (λ row. not (has_number_key row) || finds (path_of catalog (stmt.Insert s)) row) s.rows ≡ true }
{}
