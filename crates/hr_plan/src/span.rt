ghost use Rattle.std.specs.Prelude.{◌≡◌};
ghost use Rattle.hr_plan.specs.Needs.{spans_meet};
ghost use Rattle.hr_plan.specs.Spans.{meet_back};

use hr_locks::LockName;

/// The keys of a table from one number to another, both in it: what an engine that locks ranges of keys locks.
#[derive(Clone, Copy, Debug, PartialEq, Eq)]
pub struct Span {
    pub table: u32,
    pub low: i64,
    pub high: i64,
}

/// Two spans cover a common item where they are of one table and share a key.
impl LockName for Span {
    ghost meets = { spans_meet };

    ghost symmetric = { meet_back };

    fn meets(&self, other: &Span) -> bool {
        self.table == other.table && self.low <= other.high && other.low <= self.high
    }
}
