ghost use Rattle.std.specs.Prelude.{◌≡◌, List, [], ◌∷◌, map, IfOk};
ghost use Rattle.hr_rel.specs.declared.stmt.Stmt.{Stmt};
ghost use Rattle.hr_locks.specs.declared.need.Need.{Need};
ghost use Rattle.hr_locks.specs.Locks.{is_conflict};
ghost use Rattle.hr_parts.specs.Parts.{Part, conflict, Within};

use hr_locks::{LockName, Need};
use hr_rel::Stmt;
use std::alloc::{AllocError, Global};

/// Names of locks that stand for rows, and what each statement has to lock.
pub trait Locking: LockName {
    /// The rows that a need stands for.
    ghost covered: { Need Self → Part };

    /// The rows that a statement needs.
    ghost parts: { Stmt → List Part };

    /// What a statement has to lock. An error is want of memory.
    fn needs(alloc: Global, stmt: &Stmt) -> Result<Vec<Need<Self>>, AllocError>
        ensures { IfOk result (λ needs. map covered needs.items ≡ parts stmt.now) };

    /// Needs conflict exactly where the rows that they stand for do.
    ghost meeting: { (a b : Need Self) → is_conflict Self.meets a b ≡ conflict (covered a) (covered b) };

    /// The rows that a statement needs are a footprint of it.
    ghost footprint: { (s : Stmt) → Within (parts s) (s ∷ []) };
}
