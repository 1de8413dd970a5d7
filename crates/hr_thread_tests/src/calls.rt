//! A value for a turn lock: the calls themselves, in a list.
ghost use Rattle.std.specs.Prelude.{◌≡◌, ◌++◌, List, [], ◌∷◌, OnOk};
ghost use Rattle.hr_turn.specs.Entries.{Each};

use hr_turn::Kept;
use std::alloc::AllocError;

/// A caller's call: the number of its pass, and how many calls it had made before.
#[derive(Clone, Copy, Debug, PartialEq, Eq)]
pub struct Call {
    pub caller: u64,
    pub index: u64,
}

/// The calls so far.
#[derive(Drop)]
pub struct Calls {
    pub made: Vec<Call>,
}

impl Kept for Calls {
    type Entry = Call;

    ghost entries = { λ calls. calls.made.items };

    ghost caller = { λ call. call.caller };

    ghost fixed = { λ calls. [] };
}

impl Calls {
    /// Adds a call, or nothing where there is no memory.
    pub fn add(&mut self, call: Call) -> Result<(), AllocError>
        ensures grown { (more : List Call) × (self.new.made.items ≡ self.old.made.items ++ more) × Each (λ e. e.caller ≡ call.caller) more }
        ensures ok { OnOk result (self.new.made.items ≡ self.old.made.items ++ call ∷ []) }
    {
        self.made.push(call)?;
        Ok(())
    }
}
