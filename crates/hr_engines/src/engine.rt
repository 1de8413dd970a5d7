ghost use Rattle.std.specs.Prelude.{◌≡◌};
ghost use Rattle.hr_engines.specs.Kinds.{by_kind, MatchKind, make_of, honest_by_make, legal_by_kind};

use hr_engine::{Backend, EndReply, Lost, RunReply, TxnId};
use hr_rel::{Rows, Stmt};
use std::alloc::{AllocError, Global};

/// One of two engines: one that locks whole tables, or one that locks ranges of keys.
#[derive(Drop)]
pub enum Engine<T: Backend, R: Backend> {
    Table(T),
    Range(R),
}

impl<T: Backend, R: Backend> Backend for Engine<T, R> {
    ghost stands = { λ e start journal. MatchKind e (λ t. T.stands t start journal) (λ r. R.stands r start journal) };

    ghost make = { make_of T.make R.make };

    ghost is_honest = { by_kind T.is_honest R.is_honest };

    ghost is_lost = { by_kind T.is_lost R.is_lost };

    ghost losses = { by_kind T.losses R.losses };

    ghost base = { by_kind T.base R.base };

    ghost honesty = { honest_by_make T.make R.make T.is_honest R.is_honest T.honesty R.honesty };

    ghost legal = { legal_by_kind T.is_honest R.is_honest T.base R.base T.stands R.stands T.legal R.legal };

    fn run(&mut self, alloc: Global, txn: TxnId, stmt: &Stmt) -> RunReply {
        match self {
            Engine::Table(engine) => engine.run(alloc, txn, stmt),
            Engine::Range(engine) => engine.run(alloc, txn, stmt),
        }
    }

    fn commit(&mut self, txn: TxnId) -> EndReply {
        match self {
            Engine::Table(engine) => engine.commit(txn),
            Engine::Range(engine) => engine.commit(txn),
        }
    }

    fn rollback(&mut self, txn: TxnId) -> EndReply {
        match self {
            Engine::Table(engine) => engine.rollback(txn),
            Engine::Range(engine) => engine.rollback(txn),
        }
    }

    fn restart(&mut self) -> Result<u64, Lost> {
        match self {
            Engine::Table(engine) => engine.restart(),
            Engine::Range(engine) => engine.restart(),
        }
    }

    fn dump(&self, alloc: Global) -> Result<Rows, AllocError> {
        match self {
            Engine::Table(engine) => engine.dump(alloc),
            Engine::Range(engine) => engine.dump(alloc),
        }
    }
}
