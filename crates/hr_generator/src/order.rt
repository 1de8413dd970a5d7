//! What is to be made.
ghost use Rattle.std.specs.Prelude.{◌≡◌, ◌≤◌, map, IfSome, string_bytes};
ghost use Rattle.hr_generator.specs.Orders.{IsOrder};
ghost use Rattle.hr_generator.specs.Orders as orders;

use hr_line::{Number, number_of};

/// The greatest seed.
pub const MAX_SEED: u32 = 2147483647;
/// At most so many sessions are made.
pub const MAX_SESSIONS: u32 = 64;
/// At most so many transactions are made, in all sessions together: their statements, each tried four times, are no more than
/// a run may submit.
pub const MAX_TRANSACTIONS: u32 = 333;

/// A scenario that is to be made: so many transactions in each of so many sessions, drawn from a seed.
#[derive(Clone, Copy, Debug, PartialEq, Eq)]
pub struct Order {
    /// From 0 to 2147483647.
    pub seed: u32,
    /// From 1 to 64.
    pub sessions: u32,
    /// In each session, at least 1; in all together at most 333.
    pub transactions: u32,
}

/// The order that three words give: seed, sessions, transactions, each in digits with no leading zero. None where the words
/// give none.
pub fn read_order(words: &[String]) -> Option<Order>
    ensures is { result ≡ orders.order_of (map string_bytes words.now) }
    ensures within { IfSome result IsOrder }
{
    match words {
        [seed, sessions, transactions] => order_of(seed, sessions, transactions),
        _ => None,
    }
}

fn order_of(seed: &String, sessions: &String, transactions: &String) -> Option<Order>
    ensures is { result ≡ orders.ordered (orders.number_in 0 MAX_SEED (string_bytes seed.now))
        (orders.number_in 1 MAX_SESSIONS (string_bytes sessions.now))
        (orders.number_in 1 MAX_TRANSACTIONS (string_bytes transactions.now)) }
    ensures within { IfSome result IsOrder }
{
    let seed = number_in(0, MAX_SEED, seed)?;
    let sessions = number_in(1, MAX_SESSIONS, sessions)?;
    let transactions = number_in(1, MAX_TRANSACTIONS, transactions)?;
    if sessions * transactions > MAX_TRANSACTIONS {
        return None;
    }
    Some(Order {
        seed,
        sessions,
        transactions,
    })
}

// The number that a word is, where it is neither below `least` nor above `most`.
fn number_in(least: u32, most: u32, word: &String) -> Option<u32>
    ensures is { result ≡ orders.number_in least most (string_bytes word.now) }
    ensures low { IfSome result (λ n. least ≤ n) }
    ensures high { IfSome result (λ n. n ≤ most) }
{
    match number_of(word.as_bytes()) {
        Some(Number::Of(number)) if least as u64 <= number && number <= most as u64 => {
            Some(number as u32)
        }
        _ => None,
    }
}
