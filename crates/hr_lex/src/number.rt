//! Numbers.

ghost use Rattle.std.specs.Prelude.{◌≡◌, ◌≤◌, ◌^◌, ◌<◌};
ghost use Rattle.std.specs.List.{AllByRecursion};
ghost use Rattle.hr_lex.specs.Numbers as spec;
ghost use Rattle.hr_lex.specs.Bytes.{IsDigit};

use hr_base::limits::MAX_NUMBER;

/// The number with one more digit, where it is not past the largest.
fn with_digit(number: u64, digit: u8) -> Option<u64>
    requires least { number ≤ MAX_NUMBER }
    requires digit { IsDigit digit }
    ensures { result ≡ spec.fitting (spec.with_digit number digit) }
{
    let longer = u128::from(number) * 10 + u128::from(digit - b'0');
    u64::try_from(longer).ok().filter(|n| *n <= MAX_NUMBER)
}

/// The number that digits write, where it is not past the largest.
pub fn number(mut digits: &[u8]) -> Option<u64>
    requires { AllByRecursion IsDigit digits.now }
    ensures { result ≡ spec.fitting (spec.number digits.entry.now) }
{
    let mut number = 0;
    while let [digit, rest @ ..] = digits {
        number = with_digit(number, *digit)?;
        digits = rest;
    }
    Some(number)
}
