//! What all accounts hold together.
ghost use Rattle.std.specs.Prelude.{◌≡◌, ◌+ℤ◌, IfOk, option_copied};
ghost use Rattle.hr_meaning.specs.Select as meaning;
ghost use Rattle.hr_summary.specs.Summary as summary;

use hr_rel::{Row, Rows, Value};
use std::alloc::AllocError;

/// The sum of the balances in the first table of these rows. An error is want of memory.
pub fn total(rows: &Rows) -> Result<i128, AllocError>
    ensures { IfOk result (λ sum. sum ≡ summary.total rows.now) }
{
    match rows.as_slice() {
        [accounts, ..] => sum(accounts.as_slice()),
        [] => Ok(0),
    }
}

fn sum(accounts: &[Row]) -> Result<i128, AllocError>
    ensures { IfOk result (λ sum. sum ≡ summary.balances accounts.now) }
{
    let mut sum = 0;
    'accounts: for account in accounts {
        sum = with_balance(sum, account)?;
    }
    Ok(sum)
}

// A sum that 128 bits don't hold is want of memory: so many rows no memory has.
fn with_balance(sum: i128, account: &Row) -> Result<i128, AllocError>
    ensures { IfOk result (λ next. next ≡ sum +ℤ meaning.number_in (summary.balance account.now)) }
{
    match sum.checked_add(number_in(account.as_slice().get(2))) {
        Some(next) => Ok(next),
        None => Err(AllocError),
    }
}

// The number in a column; 0 where there is none.
fn number_in(value: Option<&Value>) -> i128
    ensures { result ≡ meaning.number_in (summary.value_or_null (option_copied value.entry)) }
{
    match value {
        Some(Value::Int(n)) => *n as i128,
        _ => 0,
    }
}
