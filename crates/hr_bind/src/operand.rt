//! Columns, literals and operands: what they are bound to.
ghost use Rattle.std.specs.Prelude.{◌≡◌, IfOk};
ghost use Rattle.hr_names.specs.Seen.{seen};
ghost use Rattle.hr_bind.specs.Bound as bound;

use hr_names::{ScopeRef, meant};
use hr_parse::{ColumnAst, LitAst, OperandAst};
use hr_rel::{ColRef, Name, Operand, Value};
use std::alloc::AllocError;

/// A place that is no `u32`, which no catalog is large enough for, counts as want of memory.
pub fn small(place: usize) -> Result<u32, AllocError>
    ensures { IfOk result (λ n. n ≡ place) }
{
    u32::try_from(place).map_err(|_| AllocError)
}

pub fn bound_column(scope: ScopeRef, column: &ColumnAst) -> Result<ColRef, AllocError>
    ensures { IfOk result (λ c. c ≡ bound.bound_column (seen scope.entry) column.now) }
{
    match meant(scope, column) {
        Ok(place) => Ok(ColRef {
            entry: small(place.entry)?,
            column: small(place.column)?,
        }),
        Err(_) => Ok(ColRef {
            entry: 0,
            column: 0,
        }),
    }
}

/// The value that a literal is. A text that is none was refused before.
pub fn bound_value(literal: &LitAst) -> Result<Value, AllocError>
    ensures { IfOk result (λ v. v ≡ bound.bound_value literal.now) }
{
    match literal {
        LitAst::Null => Ok(Value::Null),
        LitAst::Int(n) => Ok(Value::Int(*n)),
        LitAst::Text(text) => match Name::new(text.as_slice()) {
            Some(text) => Ok(Value::Text(text)),
            None => Err(AllocError),
        },
    }
}

pub fn bound_operand(scope: ScopeRef, operand: &OperandAst) -> Result<Operand, AllocError>
    ensures { IfOk result (λ o. o ≡ bound.bound_operand (seen scope.entry) operand.now) }
{
    match operand {
        OperandAst::Column(column) => Ok(Operand::Col(bound_column(scope, column)?)),
        OperandAst::Literal(literal) => Ok(Operand::Lit(bound_value(&literal.value)?)),
    }
}
