// Debounces and batches.
ghost use Rattle.lists.specs.Starved.{OrStarved};
ghost use Rattle.serde_json.specs.View.{view};
ghost use Rattle.registry.specs.Flows.{batch_in, batch_of, debounce_in, debounce_of};
ghost use Rattle.registry.specs.declared.flaw.Flaw.TheVariants.{Memory};

use crate::expression::{condition_in, period_in, timeout_in};
use crate::flaw::Flaw;
use crate::part::{part, whole_in};
use kinds::{Batch, Debounce};
use serde_json::Value;
use std::alloc::Global;

/// The greatest number of events in a batch.
const MOST_BATCH: u64 = 100;

/// The debounce of a function, where it has one.
pub(crate) fn debounce_in(alloc: Global, function: &Value) -> Result<Option<Debounce>, Flaw>
    ensures { OrStarved Memory (debounce_in (view function.now)) result }
{
    match part(function, "debounce") {
        Some(value) => Ok(Some(debounce_of(alloc, value)?)),
        None => Ok(None),
    }
}

#[tactic(auto, unfolding(crate::specs::Flows::debounce_of))]
fn debounce_of(alloc: Global, value: &Value) -> Result<Debounce, Flaw>
    ensures { OrStarved Memory (debounce_of (view value.now)) result }
{
    let period = period_in(value, "period")?;
    let timeout = timeout_in(value, "timeout")?;
    let key = condition_in(alloc, value, "key")?;
    Ok(Debounce {
        period,
        timeout,
        key,
    })
}

/// The batch of a function, where it has one.
pub(crate) fn batch_in(alloc: Global, function: &Value) -> Result<Option<Batch>, Flaw>
    ensures { OrStarved Memory (batch_in (view function.now)) result }
{
    match part(function, "batchEvents") {
        Some(value) => Ok(Some(batch_of(alloc, value)?)),
        None => Ok(None),
    }
}

#[tactic(auto, unfolding(crate::specs::Flows::batch_of))]
fn batch_of(alloc: Global, value: &Value) -> Result<Batch, Flaw>
    ensures { OrStarved Memory (batch_of (view value.now)) result }
{
    let Some(size) = whole_in(value, "maxSize", 1, MOST_BATCH) else {
        return Err(Flaw::Limit);
    };
    let timeout = period_in(value, "timeout")?;
    let key = condition_in(alloc, value, "key")?;
    Ok(Batch {
        size: size as u8,
        timeout,
        key,
    })
}
