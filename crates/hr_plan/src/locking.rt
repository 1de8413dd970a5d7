ghost use Rattle.hr_parts.specs.Keys.{key_parts};
ghost use Rattle.hr_parts.proofs.Lists.{covered_within};
ghost use Rattle.hr_parts.proofs.KeyParts.{keys_cover};
ghost use Rattle.hr_plan.specs.Needs.{part_of};
ghost use Rattle.hr_plan.specs.Spans.{spans_conflict};

use crate::needs::intervals;
use crate::span::Span;
use hr_lock_engine::Locking;
use hr_locks::Need;
use hr_rel::Stmt;
use std::alloc::{AllocError, Global};

/// The intervals of keys that a statement reads are shared, and the one in which it changes rows is locked for it alone.
impl Locking for Span {
    ghost covered = { part_of };

    ghost parts = { key_parts };

    ghost meeting = { spans_conflict };

    ghost footprint = { λ s. covered_within (key_parts s) s (keys_cover s) };

    fn needs(alloc: Global, stmt: &Stmt) -> Result<Vec<Need<Span>>, AllocError> {
        intervals(alloc, stmt)
    }
}
