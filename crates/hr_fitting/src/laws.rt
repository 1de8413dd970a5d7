//! What is bound fits its catalog.
ghost use Rattle.std.specs.Prelude.{◌≡◌, true, ℕ, List, IfOk};
ghost use Rattle.hr_rel.specs.declared.catalog.Catalog.{Catalog};
ghost use Rattle.hr_rel.specs.Fit.{fits};
ghost use Rattle.hr_parse.specs.declared.ast.Ast.{Ast};
ghost use Rattle.hr_bind.specs.Bind.{bind_of};
ghost use Rattle.hr_bind.specs.Prepare.{prepared};

/// A statement that a tree or a text is bound to fits the catalog: its tables and columns are there, and it breaks none
/// of the rules whose breach is told as a problem.
#[tactic(auto, using(crate::proofs::Fitting::tree_fits, crate::proofs::Fitting::text_fits))]
pub fn bound_fits()
    ensures tree { (catalog : Catalog) (tree : Ast) → IfOk (bind_of catalog tree) (λ s. fits catalog s ≡ true) }
    ensures text { (catalog : Catalog) (text : List ℕ) → IfOk (prepared catalog text) (λ s. fits catalog s ≡ true) }
{}
