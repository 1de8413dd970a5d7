//! What a run needs of the backends behind its replicas.
ghost use Rattle.std.specs.Prelude.{◌<◌, [], length, IfOk};
ghost use Rattle.hr_schedule.specs.Claims.{start, kind_of, script_of};
ghost use Rattle.hr_runnable.specs.Runnable.{IsRunnable};
ghost use Rattle.hr_step.specs.Run.{locking};
ghost use Rattle.hr_step.specs.Within.{IsBehind, Shows};

use hr_engine::Backend;
use hr_rel::Rows;
use hr_said::Scenario;
use std::alloc::{AllocError, Global};

/// A backend that begins as a scenario says of its replica, and whose journals its kind of engine, its script and its rows tell.
pub trait Replica: Backend + Drop {
    /// The backend of the replica with this number, from 0, before anything happened. An error is want of memory.
    fn begin(alloc: Global, scenario: &Scenario, replica: usize) -> Result<Self, AllocError>
        requires runnable { IsRunnable scenario.now }
        requires known { replica < length scenario.now.kinds }
        ensures stands { IfOk result (λ b. Self.stands b (start locking scenario.now) []) }
        ensures behind { IfOk result (λ b. IsBehind (kind_of locking scenario.now replica) (script_of locking scenario.now replica) (Self.make b)) };

    /// The rows that it has committed. An error is want of memory.
    fn rows(&self, alloc: Global) -> Result<Rows, AllocError>
        ensures { IfOk result (λ rows. Shows Self.make Self.stands self.now rows) };
}
