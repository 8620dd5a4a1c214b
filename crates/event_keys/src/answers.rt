// What an answer of an expression means to each of those who ask for one.
ghost use Rattle.std.specs.Prelude.{◌≡◌, IfOk};
ghost use Rattle.lists.specs.Starved.{OrStarved};
ghost use Rattle.cel_eval.specs.Cells.{IsInUnits, cell_text};
ghost use Rattle.cel_eval.specs.declared.fault.EvalFault.TheVariants as fault;
ghost use Rattle.event_keys.specs.Buckets.{key_text};
ghost use Rattle.event_keys.specs.Expressions.{Worth, is_true, shift_of};

use crate::shift::{clamped, whole};
use cel_eval::{EvalFault, Value, cell_value};
use lists::{Bytes, Memory};
use std::alloc::Global;

/// Whether it is `true`.
pub(crate) fn is_true(worth: Result<Value, EvalFault>) -> Result<bool, Memory>
    ensures { (exact : Worth) → OrStarved fault.Memory exact worth
        → IfOk result (λ b. b ≡ is_true exact) }
{
    match worth {
        Ok(Value::Bool(value)) => Ok(value),
        Err(EvalFault::Memory) => Err(Memory),
        _ => Ok(false),
    }
}

/// Its text as a key.
pub(crate) fn cell_text(alloc: Global, worth: Result<Value, EvalFault>) -> Result<Bytes, Memory>
    requires { IfOk worth IsInUnits }
    ensures { (exact : Worth) → OrStarved fault.Memory exact worth
        → IfOk result (λ t. t ≡ cell_text exact) }
{
    match worth {
        Ok(value) => cell_value(alloc, &Ok(value)),
        Err(EvalFault::Memory) => Err(Memory),
        Err(fault) => cell_value(alloc, &Err(fault)),
    }
}

/// Its text as the value of a bucket.
pub(crate) fn key_text(
    alloc: Global,
    worth: Result<Value, EvalFault>,
) -> Result<Option<Bytes>, Memory>
    requires { IfOk worth IsInUnits }
    ensures { (exact : Worth) → OrStarved fault.Memory exact worth
        → IfOk result (λ t. t ≡ key_text exact) }
{
    match worth {
        Ok(Value::List | Value::Object) => Ok(None),
        Ok(value) => Ok(Some(cell_value(alloc, &Ok(value))?)),
        Err(EvalFault::Memory) => Err(Memory),
        Err(_) => Ok(None),
    }
}

/// The shift that it gives, in seconds.
pub(crate) fn shift_of(worth: Result<Value, EvalFault>) -> Result<i64, Memory>
    ensures { (exact : Worth) → OrStarved fault.Memory exact worth
        → IfOk result (λ n. n ≡ shift_of exact) }
{
    match worth {
        Ok(Value::Number(units)) => Ok(clamped(whole(units))),
        Err(EvalFault::Memory) => Err(Memory),
        _ => Ok(0),
    }
}
