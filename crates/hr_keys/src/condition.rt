//! The key that a condition asks for.
ghost use Rattle.std.specs.Prelude.{◌≡◌, Some, IfSome};
ghost use Rattle.hr_keys.specs.Keys.{Asks, is_key_column};

use hr_rel::{ColRef, Op, Operand, Pred, Value};

/// A key without which the condition is true of no row; None where there is no condition, or none is seen. It is seen where the
/// condition compares the key with a number by `=`, on either side, alone or as a part of an AND.
pub fn asked_key(filter: &Option<Pred>) -> Option<i64>
    ensures { IfSome result (λ key. Asks key filter.now) }
{
    match filter {
        Some(pred) => key_in(pred),
        None => None,
    }
}

#[tactic(auto, using(crate::proofs::Conditions::asks_left, crate::proofs::Conditions::asks_right, crate::proofs::Conditions::asks_first, crate::proofs::Conditions::asks_last))]
fn key_in(pred: &Pred) -> Option<i64>
    ensures { IfSome result (λ key. Asks key (Some pred.now)) }
{
    match pred {
        Pred::And(a, b) => match key_in(a.get()) {
            Some(key) => Some(key),
            None => key_in(b.get()),
        },
        Pred::Compare(Op::Eq, Operand::Col(column), Operand::Lit(Value::Int(key)))
        | Pred::Compare(Op::Eq, Operand::Lit(Value::Int(key)), Operand::Col(column))
            if is_key_column(*column) => { Some(*key) }
        _ => None,
    }
}

// The key is the first column of the one table entry.
fn is_key_column(column: ColRef) -> bool
    ensures { result ≡ is_key_column column }
{
    column.entry == 0 && column.column == 0
}
