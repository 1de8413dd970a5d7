//! The backends of the program: for each replica an engine of its kind, behind its script.
ghost use Rattle.std.specs.Prelude.{◌≡◌, [], true, IfOk};
ghost use Rattle.hr_rel.specs.Database.{Database};
ghost use Rattle.hr_rel.specs.Holds.{IsSound, holds};
ghost use Rattle.hr_engine.specs.Journal.{Journal};
ghost use Rattle.hr_parts.specs.Footprints.{table_parts};
ghost use Rattle.hr_parts.specs.Keys.{key_parts};
ghost use Rattle.hr_lock_engine.specs.Conflicts.{by_parts};
ghost use Rattle.hr_engines.specs.declared.engine.Engine.{Engine};
ghost use Rattle.hr_engines.specs.Kinds.{by_kind};
ghost use Rattle.hr_schedule.specs.Claims.{start};
ghost use Rattle.hr_step.specs.Run.{locking};
ghost use Rattle.hr_step.specs.Within.{IsOfKind, IsKept, Shows};

use crate::copy::copied;
use crate::replica::Replica;
use hr_engine::Backend;
use hr_engines::{Engine, Engines};
use hr_faulty::Faulty;
use hr_lock_engine::LockEngine;
use hr_plan::Span;
use hr_range_engine::{RangeStore, range_engine};
use hr_rel::Rows;
use hr_said::{EngineKind, Scenario};
use hr_table_engine::{TableName, TableStore, table_engine};
use std::alloc::{AllocError, Global};

impl Replica for Faulty<Engine<LockEngine<TableName, TableStore>, LockEngine<Span, RangeStore>>> {
    fn begin(alloc: Global, scenario: &Scenario, replica: usize) -> Result<Self, AllocError> {
        let script = copied(alloc, scenario.faults.as_slice()[replica].as_slice())?;
        let engine = engine(alloc, scenario, scenario.kinds.as_slice()[replica])?;
        Ok(Faulty::new(engine, script))
    }

    fn rows(&self, alloc: Global) -> Result<Rows, AllocError> {
        rows_of(alloc, self)
    }
}

// The rows that one of two honest engines has committed, behind a script, where the journals of each are exact for its kind.
fn rows_of<T: Backend, R: Backend>(
    alloc: Global,
    backend: &Faulty<Engine<T, R>>,
) -> Result<Rows, AllocError>
    requires table { (t : T) (start : Database) (journal : Journal) → T.stands t start journal → IsKept (by_parts table_parts) (T.base t) start journal }
    requires range { (r : R) (start : Database) (journal : Journal) → R.stands r start journal → IsKept (by_parts key_parts) (R.base r) start journal }
    requires honest { (e : Engine T R) → by_kind T.is_honest R.is_honest e ≡ true }
    ensures { IfOk result (λ rows. Shows ⟦<Faulty<Engine<T, R>> as Backend>⟧.make ⟦<Faulty<Engine<T, R>> as Backend>⟧.stands backend.now rows) }
{
    backend.dump(alloc)
}

fn engine(alloc: Global, scenario: &Scenario, kind: EngineKind) -> Result<Engines, AllocError>
    requires sound { IsSound scenario.now.catalog }
    requires holds { holds scenario.now.catalog scenario.now.rows ≡ true }
    ensures stands { IfOk result (λ e. ⟦<Engine<LockEngine<TableName, TableStore>, LockEngine<Span, RangeStore>> as Backend>⟧.stands e (start locking scenario.now) []) }
    ensures kind { IfOk result (λ e. IsOfKind kind (⟦<Engine<LockEngine<TableName, TableStore>, LockEngine<Span, RangeStore>> as Backend>⟧.make e)) }
{
    match kind {
        EngineKind::ByTable => Ok(Engine::Table(table_engine(
            alloc,
            &scenario.catalog,
            &scenario.rows,
        )?)),
        EngineKind::ByRange => Ok(Engine::Range(range_engine(
            alloc,
            &scenario.catalog,
            &scenario.rows,
        )?)),
    }
}
