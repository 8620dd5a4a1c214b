// What cancels the runs of a function.
ghost use Rattle.lists.specs.Starved.{OrStarved};
ghost use Rattle.std.specs.Prelude.{◌≡◌, [], option_map};
ghost use Rattle.serde_json.specs.View.{items_view, view};
ghost use Rattle.registry.specs.Flows.{cancel_event, cancel_in, cancel_of, cancels_in};
ghost use Rattle.registry.specs.Members.{read_behind};
ghost use Rattle.registry.specs.declared.flaw.Flaw.TheVariants.{Memory};

use crate::expression::{condition_in, timeout_in};
use crate::flaw::Flaw;
use crate::part::{has_count, part};
use kinds::CancelEntry;
use lists::{Bytes, Items};
use serde_json::Value;
use std::alloc::Global;

/// The greatest number of entries.
const MOST_CANCELS: usize = 5;

/// What cancels the runs of a function.
#[tactic(auto, unfolding(crate::specs::Flows::cancels_in))]
pub(crate) fn cancels_in(alloc: Global, function: &Value) -> Result<Items<CancelEntry>, Flaw>
    ensures { OrStarved Memory (cancels_in (view function.now)) result }
{
    let Some(value) = part(function, "cancel") else {
        return Ok(Items::new(alloc));
    };
    let Some(items) = value.as_array() else {
        return Err(Flaw::Limit);
    };
    if !has_count(items.as_slice(), 0, MOST_CANCELS) {
        return Err(Flaw::Limit);
    }
    cancels_from(alloc, items.as_slice())
}

fn cancels_from(alloc: Global, items: &[Value]) -> Result<Items<CancelEntry>, Flaw>
    ensures { OrStarved Memory (read_behind (λ _. cancel_of) [] (items_view items.now)) result }
{
    let mut cancels = Items::new(alloc);
    for item in items {
        cancels.push(cancel_of(alloc, item)?)?;
    }
    Ok(cancels)
}

fn cancel_of(alloc: Global, value: &Value) -> Result<CancelEntry, Flaw>
    ensures { OrStarved Memory (cancel_of (view value.now)) result }
{
    if !value.is_object() {
        return Err(Flaw::Limit);
    }
    cancel_in(alloc, value)
}

#[tactic(auto, unfolding(crate::specs::Flows::cancel_in))]
fn cancel_in(alloc: Global, value: &Value) -> Result<CancelEntry, Flaw>
    ensures { OrStarved Memory (cancel_in (view value.now)) result }
{
    let Some(event) = cancel_event(value) else {
        return Err(Flaw::CancelName);
    };
    let cond = condition_in(alloc, value, "if")?;
    let timeout = timeout_in(value, "timeout")?;
    let event = Bytes::from_slice(alloc, event)?;
    Ok(CancelEntry {
        event,
        cond,
        timeout,
    })
}

/// The name of the event that cancels, which is none of the server's own.
fn cancel_event(value: &Value) -> Option<&[u8]>
    ensures { option_map (λ s. s.now) result ≡ cancel_event (view value.now) }
{
    let text = part(value, "event")?.as_str()?.as_bytes();
    if text.starts_with(b"inngest/") {
        None
    } else {
        Some(text)
    }
}
