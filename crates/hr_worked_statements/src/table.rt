//! The table of worked statements, part by part.
ghost use Rattle.std.specs.Prelude.{◌≡◌};
ghost use Rattle.hr_worked_statements.specs.Words.{worked_out, defined};
ghost use Rattle.hr_worked_statements.specs.Plain.{plain};
ghost use Rattle.hr_worked_statements.specs.Unknown.{unknown};
ghost use Rattle.hr_worked_statements.specs.Expressions.{expressions};
ghost use Rattle.hr_worked_statements.specs.ManyRows.{many_rows};
ghost use Rattle.hr_worked_statements.specs.Groups.{groups};
ghost use Rattle.hr_worked_statements.specs.Aggregates.{aggregates};
ghost use Rattle.hr_worked_statements.specs.Joins.{joins};
ghost use Rattle.hr_worked_statements.specs.FurtherJoins.{further_joins};
ghost use Rattle.hr_worked_statements.specs.Inserts.{inserts};
ghost use Rattle.hr_worked_statements.specs.Updates.{updates};
ghost use Rattle.hr_worked_statements.specs.Deletes.{deletes};
ghost use Rattle.hr_worked_statements.specs.UnfitSelects.{unfit_select};
ghost use Rattle.hr_worked_statements.specs.UnfitTrees.{unfit_tree};
ghost use Rattle.hr_worked_statements.specs.UnfitChanges.{unfit_change};

/// SELECTs of rows: columns, comparisons of each kind, the key or another column on either side.
pub fn plain()
    ensures { defined plain ≡ worked_out plain }
{}

/// What NULL makes of conditions.
pub fn unknown()
    ensures { defined unknown ≡ worked_out unknown }
{}

/// Expressions, with NULL and near the ends of the numbers.
pub fn expressions()
    ensures { defined expressions ≡ worked_out expressions }
{}

/// Answers of 128 rows or groups, and of more.
pub fn many_rows()
    ensures { defined many_rows ≡ worked_out many_rows }
{}

/// GROUP BY.
pub fn groups()
    ensures { defined groups ≡ worked_out groups }
{}

/// Aggregates alone.
pub fn aggregates()
    ensures { defined aggregates ≡ worked_out aggregates }
{}

/// Joins of two tables.
pub fn joins()
    ensures { defined joins ≡ worked_out joins }
{}

/// Joins of a table with itself, and aggregates and expressions over joins.
pub fn further_joins()
    ensures { defined further_joins ≡ worked_out further_joins }
{}

/// INSERT.
pub fn inserts()
    ensures { defined inserts ≡ worked_out inserts }
{}

/// UPDATE.
pub fn updates()
    ensures { defined updates ≡ worked_out updates }
{}

/// DELETE.
pub fn deletes()
    ensures { defined deletes ≡ worked_out deletes }
{}

/// SELECTs that fit no catalog or not this one.
pub fn unfit_select()
    ensures { defined unfit_select ≡ worked_out unfit_select }
{}

/// SELECTs that no text gives, and that fit no catalog or not this one.
pub fn unfit_tree()
    ensures { defined unfit_tree ≡ worked_out unfit_tree }
{}

/// INSERTs, UPDATEs and DELETEs that do not fit.
pub fn unfit_change()
    ensures { defined unfit_change ≡ worked_out unfit_change }
{}
