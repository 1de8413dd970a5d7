//! Laws of single statements.
ghost use Rattle.std.specs.Prelude.{◌≡◌, true, false, List, IsPermutation};
ghost use Rattle.hr_rel.specs.declared.answer.Answer.TheVariants.{Failed};
ghost use Rattle.hr_rel.specs.declared.answer.RunError.{RunError};
ghost use Rattle.hr_rel.specs.declared.answer.RunError.TheVariants.{Unfit};
ghost use Rattle.hr_rel.specs.declared.stmt.Stmt.{Stmt};
ghost use Rattle.hr_rel.specs.declared.stmt.Stmt.TheVariants as stmt;
ghost use Rattle.hr_rel.specs.declared.stmt.SelectStmt.{SelectStmt};
ghost use Rattle.hr_rel.specs.Database.{Database};
ghost use Rattle.hr_rel.specs.Fit.{Entries, fits, is_grouped, items_fit};
ghost use Rattle.hr_rel.specs.Holds.{holds, IsSound, IsOrdered};
ghost use Rattle.hr_meaning.specs.Truth.{Tuple};
ghost use Rattle.hr_meaning.specs.Select.{answer_from};
ghost use Rattle.hr_meaning.specs.Exec.{kept, exec, failed};
ghost use Rattle.hr_meaning.specs.SameAnswer.{SameAnswer};
ghost use Rattle.hr_statement_laws.specs.Sizes.{is_small};
ghost use Rattle.hr_statement_laws.specs.Groups.{shows_groups};

/// No statement changes the catalog.
pub fn keeps_catalog()
    ensures { (db : Database) (s : Stmt) → (exec db s).after.catalog ≡ db.catalog }
{}

/// A statement that fails changes nothing.
pub fn failure_changes_nothing()
    ensures { (db : Database) (s : Stmt) (e : RunError) → (exec db s).answer ≡ Failed e → (exec db s).after ≡ db }
{}

/// A SELECT changes nothing.
pub fn select_changes_nothing()
    ensures { (db : Database) (s : SelectStmt) → (exec db (stmt.Select s)).after ≡ db }
{}

/// A statement that doesn't fit the catalog fails as Unfit, whatever rows there are.
pub fn unfit_fails()
    ensures { (db : Database) (s : Stmt) → fits db.catalog s ≡ false → exec db s ≡ failed db Unfit }
{}

/// An answer has at most 128 rows of at most 8 values.
pub fn answers_are_small()
    ensures { (db : Database) (s : Stmt) → is_small (exec db s).answer ≡ true }
{}

/// A database in order stays in order.
pub fn keeps_order()
    ensures { (db : Database) (s : Stmt) → IsOrdered db → IsOrdered (exec db s).after }
{}

/// Rows that fit a sound catalog are in order, and go on to fit it, whatever statement runs.
pub fn keeps_fitting()
    ensures ordered { (db : Database) → IsSound db.catalog → holds db.catalog db.tables ≡ true → IsOrdered db }
    ensures keeps { (db : Database) (s : Stmt) → IsSound db.catalog → holds db.catalog db.tables ≡ true → holds (exec db s).after.catalog (exec db s).after.tables ≡ true }
{}

/// A SELECT answers the same, in whatever order the rows or pairs that it keeps are looked at: the same rows as often, or
/// the same failure.
///
/// One that groups gives its rows in the same order too. Where it groups, its items have to be aggregates and columns of
/// GROUP BY, as those of one that fits are: any other item would show of a group what its first row has.
pub fn in_any_order()
    ensures plain { (s : SelectStmt) (rows others : List Tuple) → is_grouped s ≡ false → IsPermutation rows others → SameAnswer (answer_from s rows) (answer_from s others) }
    ensures grouped { (s : SelectStmt) (rows others : List Tuple) → is_grouped s ≡ true → shows_groups s ≡ true → IsPermutation rows others → answer_from s rows ≡ answer_from s others }
    ensures fitting { (entries : Entries) (s : SelectStmt) (rows others : List Tuple) → items_fit entries s ≡ true → IsPermutation rows others → SameAnswer (answer_from s rows) (answer_from s others) }
    ensures run { (db : Database) (s : SelectStmt) (others : List Tuple) → fits db.catalog (stmt.Select s) ≡ true → IsPermutation (kept db s) others → SameAnswer (exec db (stmt.Select s)).answer (answer_from s others) }
{}
