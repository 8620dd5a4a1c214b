// Members that are expressions or durations.
ghost use Rattle.lists.specs.Starved.{OrStarved};
ghost use Rattle.std.specs.Prelude.{◌≡◌};
ghost use Rattle.serde_json.specs.View.{view};
ghost use Rattle.registry.specs.Expressions.{condition_in, expression_of, period_in, period_of, timeout_in};
ghost use Rattle.registry.specs.declared.flaw.Flaw.TheVariants.{Memory};

use crate::flaw::Flaw;
use crate::part::part;
use cel_parse::parse;
use expr::Expr;
use serde_json::Value;
use std::alloc::Global;
use text_num::read_duration;

/// The expression that a value is.
#[tactic(auto, unfolding(crate::specs::Expressions::expression_of))]
pub(crate) fn expression_of(alloc: Global, value: &Value) -> Result<Expr, Flaw>
    ensures { OrStarved Memory (expression_of (view value.now)) result }
{
    let Some(text) = value.as_str() else {
        return Err(Flaw::Expression { at: 0 });
    };
    Ok(parse(alloc, text.as_bytes())?)
}

/// The expression in the member of this name, which may be absent.
pub(crate) fn condition_in(alloc: Global, object: &Value, name: &str) -> Result<Option<Expr>, Flaw>
    ensures { OrStarved Memory (condition_in name.now (view object.now)) result }
{
    match part(object, name) {
        Some(value) => Ok(Some(expression_of(alloc, value)?)),
        None => Ok(None),
    }
}

/// The duration that a value is, in milliseconds, from 1 to 366 days.
#[tactic(auto, unfolding(crate::specs::Expressions::period_of))]
fn period_of(value: &Value) -> Result<u64, Flaw>
    ensures { result ≡ period_of (view value.now) }
{
    let Some(text) = value.as_str() else {
        return Err(Flaw::Period);
    };
    match read_duration(text.as_bytes()) {
        Ok(millis) if millis > 0 => Ok(millis),
        _ => Err(Flaw::Period),
    }
}

/// The duration in the member of this name.
pub(crate) fn period_in(object: &Value, name: &str) -> Result<u64, Flaw>
    ensures { result ≡ period_in name.now (view object.now) }
{
    match part(object, name) {
        Some(value) => period_of(value),
        None => Err(Flaw::Period),
    }
}

/// The duration in the member of this name, which may be absent.
pub(crate) fn timeout_in(object: &Value, name: &str) -> Result<Option<u64>, Flaw>
    ensures { result ≡ timeout_in name.now (view object.now) }
{
    match part(object, name) {
        Some(value) => Ok(Some(period_of(value)?)),
        None => Ok(None),
    }
}
