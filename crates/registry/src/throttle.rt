// Throttles.
ghost use Rattle.lists.specs.Starved.{OrStarved};
ghost use Rattle.std.specs.Prelude.{◌≡◌, ◌≤◌, codes, IfOk};
ghost use Rattle.serde_json.specs.View.{view};
ghost use Rattle.registry.specs.Flows.{burst_of, most_limit, throttle_in, throttle_of};
ghost use Rattle.registry.specs.Members.{part};
ghost use Rattle.registry.specs.declared.flaw.Flaw.TheVariants.{Memory};

use crate::expression::{condition_in, period_in};
use crate::flaw::Flaw;
use crate::limit::MOST_LIMIT;
use crate::part::{part, whole, whole_in};
use kinds::Throttle;
use serde_json::Value;
use std::alloc::Global;

/// The throttle of a function, where it has one.
pub(crate) fn throttle_in(alloc: Global, function: &Value) -> Result<Option<Throttle>, Flaw>
    ensures { OrStarved Memory (throttle_in (view function.now)) result }
{
    match part(function, "throttle") {
        Some(value) => Ok(Some(throttle_of(alloc, value)?)),
        None => Ok(None),
    }
}

#[tactic(auto, unfolding(crate::specs::Flows::throttle_of))]
fn throttle_of(alloc: Global, value: &Value) -> Result<Throttle, Flaw>
    ensures { OrStarved Memory (throttle_of (view value.now)) result }
{
    let Some(limit) = whole_in(value, "limit", 1, MOST_LIMIT) else {
        return Err(Flaw::Limit);
    };
    let burst = burst_of(value)?;
    let period = period_in(value, "period")?;
    let key = condition_in(alloc, value, "key")?;
    Ok(Throttle {
        limit: limit as u32,
        period,
        burst: burst as u32,
        key,
    })
}

/// How many starts a throttle allows at once.
fn burst_of(value: &Value) -> Result<u64, Flaw>
    ensures value { result ≡ burst_of (part (codes "burst") (view value.now)) }
    ensures most { IfOk result (λ n. n ≤ most_limit) }
{
    let Some(burst) = part(value, "burst") else {
        return Ok(1);
    };
    match whole(burst, 1, MOST_LIMIT) {
        Some(number) => Ok(number),
        None => Err(Flaw::Limit),
    }
}
