//! The calls of a source or a sink over memory.

ghost use Rattle.std.specs.Prelude.{◌≡◌, ◌≤◌, ◌↔◌, IsErr, OnErr, OnOk};
ghost use Rattle.hr_io.specs.Faults.{HasCause};
ghost use Rattle.hr_io.specs.Calls.{IsToFail, fresh_calls, one_more, one_failed};
ghost use Rattle.hr_base.specs.Counters.{next_count};

use crate::error::Failed;
use std::marker::Model;

/// How many calls were made, which of them are to fail, and how many failed.
#[derive(Debug, Drop)]
pub struct Calls {
    failing: Vec<u64>,
    made: u64,
    faults: u64,
}

impl Model for Calls {
    ghost use Rattle.hr_io.specs.Calls.{CallLog};

    ghost Value = { CallLog };

    ghost view = { λ c. record { failing = c.failing.items; made = c.made; faults = c.faults } };
}

impl Calls {
    pub fn new(failing: Vec<u64>) -> Self
        ensures { result ≡ fresh_calls failing.items }
    {
        Calls {
            failing,
            made: 0,
            faults: 0,
        }
    }

    /// Counts one more call, which fails where its number is one of those listed.
    pub fn begin(&mut self) -> Result<(), Failed>
        ensures fails { IsErr result ↔ IsToFail self.old }
        ensures ok { OnOk result (self.new ≡ one_more self.old) }
        ensures err { OnErr result (self.new ≡ one_failed self.old) }
        ensures cause { HasCause self.old.faults self.new.faults result }
    {
        self.made = self.made.saturating_add(1);
        if self.failing.contains(&self.made) {
            return Err(self.fault());
        }
        Ok(())
    }

    /// Counts one more failure.
    pub fn fault(&mut self) -> Failed
        ensures counted { self.new ≡ record self.old { faults = next_count self.old.faults } }
        ensures later { self.old.faults ≤ self.new.faults }
    {
        self.faults = self.faults.saturating_add(1);
        Failed
    }
}
