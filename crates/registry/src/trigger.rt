// Triggers.
ghost use Rattle.lists.specs.Starved.{OrStarved};
ghost use Rattle.std.specs.Prelude.{◌≡◌, [], option_map};
ghost use Rattle.serde_json.specs.View.{items_view, view};
ghost use Rattle.registry.specs.Members.{read_behind};
ghost use Rattle.registry.specs.Triggers.{event_of, have_events, trigger_of, triggers_in};
ghost use Rattle.registry.specs.declared.flaw.Flaw.TheVariants.{Memory};

use crate::expression::condition_in;
use crate::flaw::Flaw;
use crate::part::{array_in, has_count, part, text_in};
use kinds::Trigger;
use lists::{Bytes, Items};
use serde_json::Value;
use std::alloc::Global;

/// The greatest number of triggers of a function.
const MOST_TRIGGERS: usize = 10;

/// The triggers of a function.
#[tactic(auto, unfolding(crate::specs::Triggers::triggers_in))]
pub(crate) fn triggers_in(alloc: Global, function: &Value) -> Result<Items<Trigger>, Flaw>
    ensures { OrStarved Memory (triggers_in (view function.now)) result }
{
    let Some(items) = array_in(function, "triggers") else {
        return Err(Flaw::Trigger);
    };
    if !has_count(items, 1, MOST_TRIGGERS) || !have_events(items) {
        return Err(Flaw::Trigger);
    }
    triggers_from(alloc, items)
}

/// Each of these has an event.
fn have_events(items: &[Value]) -> bool
    ensures { result ≡ have_events (items_view items.now) }
{
    for item in items {
        if event_of(item).is_none() {
            return false;
        }
    }
    true
}

fn triggers_from(alloc: Global, items: &[Value]) -> Result<Items<Trigger>, Flaw>
    ensures { OrStarved Memory (read_behind (λ _. trigger_of) [] (items_view items.now)) result }
{
    let mut triggers = Items::new(alloc);
    for item in items {
        triggers.push(trigger_of(alloc, item)?)?;
    }
    Ok(triggers)
}

#[tactic(auto, unfolding(crate::specs::Triggers::trigger_of))]
fn trigger_of(alloc: Global, value: &Value) -> Result<Trigger, Flaw>
    ensures { OrStarved Memory (trigger_of (view value.now)) result }
{
    let Some(event) = event_of(value) else {
        return Err(Flaw::Trigger);
    };
    let cond = condition_in(alloc, value, "expression")?;
    let event = Bytes::from_slice(alloc, event.as_bytes())?;
    Ok(Trigger { event, cond })
}

/// The name of the event, of a trigger that isn't a time.
fn event_of(value: &Value) -> Option<&str>
    ensures { option_map (λ s. s.now) result ≡ event_of (view value.now) }
{
    if part(value, "cron").is_some() {
        return None;
    }
    text_in(value, "event")
}
