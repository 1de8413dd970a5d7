ghost use Rattle.std.specs.Prelude.{◌≡◌, false};
ghost use Rattle.hr_rel.specs.Database.{Database};
ghost use Rattle.hr_engine.specs.Journal.{Journal};
ghost use Rattle.hr_engine.specs.Base.{settled};
ghost use Rattle.hr_engine.specs.Exact.{Exact};
ghost use Rattle.hr_engine.specs.Rigorous.{Rigorous};
ghost use Rattle.hr_parts.specs.Footprints.{table_parts};
ghost use Rattle.hr_parts.specs.Keys.{key_parts};
ghost use Rattle.hr_lock_engine.specs.Conflicts.{by_parts};
ghost use Rattle.hr_lock_engine.specs.Lends.{store_of};
ghost use Rattle.hr_range_engine.specs.Handed.{handed_by};
ghost use Rattle.hr_engines.specs.Kinds.{by_kind};

use crate::Engine;
use hr_engine::Backend;
use hr_lock_engine::LockEngine;
use hr_plan::Span;
use hr_range_engine::RangeStore;
use hr_table_engine::{TableName, TableStore};

/// The engines of the program.
pub type Engines = Engine<LockEngine<TableName, TableStore>, LockEngine<Span, RangeStore>>;

/// Each journal that an engine stands for is exact for its kind, statements conflicting where the tables or the intervals of keys
/// that they need meet, and rigorous. It tells of no loss.
pub fn journals(engine: &Engine<LockEngine<TableName, TableStore>, LockEngine<Span, RangeStore>>)
    ensures exact { (start : Database) (journal : Journal) → ⟦<Engine<LockEngine<TableName, TableStore>, LockEngine<Span, RangeStore>> as Backend>⟧.stands engine.now start journal → Exact (by_parts (by_kind (λ t. table_parts) (λ r. key_parts) engine.now)) journal }
    ensures rigorous { (start : Database) (journal : Journal) → ⟦<Engine<LockEngine<TableName, TableStore>, LockEngine<Span, RangeStore>> as Backend>⟧.stands engine.now start journal → Rigorous start journal }
    ensures never_lost { (start : Database) (journal : Journal) → ⟦<Engine<LockEngine<TableName, TableStore>, LockEngine<Span, RangeStore>> as Backend>⟧.stands engine.now start journal → (settled journal).lost ≡ false }
{
    match engine {
        Engine::Table(engine) => engine.journals(),
        Engine::Range(engine) => engine.journals(),
    }
}

/// How many keys an engine has handed out in search of rows; it stands still at its last number. One that locks whole tables
/// hands out none. Takes no memory.
pub fn handed(
    engine: &Engine<LockEngine<TableName, TableStore>, LockEngine<Span, RangeStore>>,
) -> u64
    ensures { result ≡ by_kind (λ t. 0) (λ r. handed_by (store_of r)) engine.now }
{
    match engine {
        Engine::Table(_) => 0,
        Engine::Range(engine) => engine.store().handed(),
    }
}
