//! Stretches of a table outside of which no row has a key, or is kept.
ghost use Rattle.std.specs.Prelude.{◌≡◌, ◌≤◌, [], ◌∷◌, true, length};
ghost use Rattle.hr_rel.specs.Holds.{is_ordered};
ghost use Rattle.hr_meaning.specs.Truth.{is_kept};
ghost use Rattle.hr_meaning.specs.Insert.{has_key};
ghost use Rattle.hr_keys.specs.Keys.{IsClear};

use crate::condition::asked_key;
use crate::place::place_of;
use hr_rel::{Pred, Row};

/// The rows from one place of a table up to another.
#[derive(Clone, Copy)]
pub struct Span {
    pub from: usize,
    pub to: usize,
}

/// The row that may have this key in a table in order: a span of one row or none.
#[tactic(auto, using(crate::proofs::Places::splits_in_order))]
pub fn near(table: &[Row], key: i64) -> Span
    requires { is_ordered table.now ≡ true }
    ensures within { (result.from ≤ result.to) × (result.to ≤ length table.now) }
    ensures clear { IsClear (has_key key) result.from result.to table.now }
{
    let to = place_of(table, key);
    Span {
        from: to.saturating_sub(1),
        to,
    }
}

/// The rows that a condition may keep: those near the key that it asks for, where the table is known to be in order, or all.
#[tactic(auto, using(crate::proofs::Places::clear_all))]
pub fn span_of(table: &[Row], filter: &Option<Pred>, ordered: bool) -> Span
    requires { ordered ≡ true → is_ordered table.now ≡ true }
    ensures within { (result.from ≤ result.to) × (result.to ≤ length table.now) }
    ensures clear { IsClear (λ row. is_kept filter.now (row ∷ [])) result.from result.to table.now }
{
    match asked_key(filter) {
        Some(key) if ordered => near(table, key),
        _ => Span {
            from: 0,
            to: table.len(),
        },
    }
}
