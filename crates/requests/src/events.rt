// A request of events, to an input or an answer.
ghost use Rattle.std.specs.Prelude.{◌≡◌, IfOk, Some};
ghost use Rattle.intake.specs.Events.{events_in_body};
ghost use Rattle.requests.specs.Requests.{events_request, requested_events};

use crate::Requested;
use intake::read_events;
use kinds::{EventIn, Input, ids_answer};
use lists::{Items, Memory};
use std::alloc::Global;

/// Reads a request of events, with the clock reading that it came at, in milliseconds since 1970. A body
/// that is refused and one with no event are answered at once.
pub fn read_events_request(alloc: Global, at: u64, body: &[u8]) -> Result<Requested, Memory>
    ensures { IfOk result (λ requested. events_request at body.now ≡ Some requested) }
{
    match read_events(alloc, body) {
        Ok(events) => requested_events(alloc, at, events),
        Err(fault) => Ok(Requested::Answered(fault.answer(alloc)?)),
    }
}

// A request without events is no input.
fn requested_events(alloc: Global, at: u64, events: Items<EventIn>) -> Result<Requested, Memory>
    ensures { IfOk result (λ requested. requested ≡ requested_events at events) }
{
    if events.is_empty() {
        return Ok(Requested::Answered(ids_answer(alloc, &[])?));
    }
    Ok(Requested::Input(Input::Events { at, events }))
}
