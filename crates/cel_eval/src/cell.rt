// Results of expressions as keys of cells and windows.
ghost use Rattle.std.specs.Prelude.{◌≡◌, ◌≢◌, ◌<◌, ◌^◌, ◌++◌, unsigned_abs, IfOk, OnOk, Err};
ghost use Rattle.text_num.specs.Units.{units_text};
ghost use Rattle.cel_eval.specs.Cells.{cell_text, value_text, IsInUnits};
ghost use Rattle.cel_eval.specs.Operations.{bool_text};
ghost use Rattle.cel_eval.specs.declared.fault.EvalFault.TheVariants as fault;

use crate::{EvalFault, Value};
use lists::{Bytes, Memory};
use std::alloc::Global;
use text_num::put_units;

/// The text of a result as a key: `!` for a fault, a list or an object, `s` and a text, `n` and a number by the
/// shortest decimal, or `true`, `false` and `null`.
pub fn cell_value(alloc: Global, outcome: &Result<Value, EvalFault>) -> Result<Bytes, Memory>
    requires answer { outcome.now ≢ Err fault.Memory }
    requires units { IfOk outcome.now IsInUnits }
    ensures { IfOk result (λ text. text ≡ cell_text outcome.now) }
{
    match outcome {
        Ok(value) => value_text(alloc, value),
        Err(_) => Bytes::from_slice(alloc, b"!"),
    }
}

fn value_text(alloc: Global, value: &Value) -> Result<Bytes, Memory>
    requires { IsInUnits value.now }
    ensures { IfOk result (λ text. text ≡ value_text value.now) }
{
    match value {
        Value::Null => Bytes::from_slice(alloc, b"null"),
        Value::Bool(value) => Bytes::from_slice(alloc, bool_text(*value)),
        Value::Number(units) => {
            let mut text = Bytes::from_slice(alloc, b"n")?;
            push_units(&mut text, *units)?;
            Ok(text)
        }
        Value::Text(content) => {
            let mut text = Bytes::from_slice(alloc, b"s")?;
            text.extend_from_slice(content.as_slice())?;
            Ok(text)
        }
        Value::List | Value::Object => Bytes::from_slice(alloc, b"!"),
    }
}

pub(crate) fn bool_text(value: bool) -> &'static [u8]
    ensures { result.now ≡ bool_text value }
{
    if value { b"true" } else { b"false" }
}

/// Adds the shortest decimal of a number.
pub(crate) fn push_units(text: &mut Bytes, units: i128) -> Result<(), Memory>
    requires { unsigned_abs units < 10 ^ 38 }
    ensures { OnOk result (text.new ≡ text.old ++ units_text units) }
{
    let mut buffer = [0; 64];
    let len = put_units(units, &mut buffer);
    text.extend_from_slice(&buffer[..len])
}
