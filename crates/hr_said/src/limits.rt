//! Where lines may stand, and numbers and names within their limits.

ghost use Rattle.std.specs.Prelude.{◌≡◌, min, ◌^◌, ◌-◌};
ghost use Rattle.hr_said.specs.Limits as spec;

use hr_line::{LineName, Number};

/// How many tables there may be.
pub const MAX_TABLES: usize = 16;

/// How many rows the tables may begin with, in all.
pub const MAX_FIRST_ROWS: u32 = 10_000;

/// How often a refused transaction may be tried again.
pub const MAX_RETRIES: u64 = 9;

/// How many faults there may be in all.
pub const MAX_FAULTS: u32 = 1000;

/// How many transactions a fault may name.
pub const MAX_FAULT_LIST: usize = 8;

/// The greatest number of a call, and of commits before a suspicion.
pub const MAX_CALL: u64 = 1_000_000;

/// How many suspicions there may be.
pub const MAX_SUSPECTS: usize = 64;

/// How many choices a schedule may have, with its rounds written out.
pub const MAX_CHOICES: u64 = 200_000;

/// Whether a line of this part may stand behind one of the last part.
pub fn may_stand(last: u32, part: u32) -> bool
    ensures { result ≡ spec.may_stand last part }
{
    if part <= 3 {
        last < part && part - last == 1
    } else {
        3 <= last && (last < part || last == part && 5 <= part && part <= 7)
    }
}

/// Whether a number lies within these.
pub fn is_within(least: u64, most: u64, number: Number) -> bool
    ensures { result ≡ spec.is_within least most number }
{
    match number {
        Number::Of(n) => least <= n && n <= most,
        Number::TooLarge => false,
    }
}

/// A number as 64 bits hold it.
pub fn value(number: Number) -> u64
    ensures { result ≡ spec.value number }
{
    match number {
        Number::Of(n) => n,
        Number::TooLarge => u64::MAX,
    }
}

/// A number as 32 bits hold it.
pub fn small(number: Number) -> u32
    ensures { result ≡ spec.small number }
{
    let n = value(number);
    if n < 1 << 32 { n as u32 } else { u32::MAX }
}

pub fn is_too_long(name: &LineName) -> bool
    ensures { result ≡ spec.is_too_long name.now }
{
    match name {
        LineName::Short(_) => false,
        LineName::TooLong => true,
    }
}
