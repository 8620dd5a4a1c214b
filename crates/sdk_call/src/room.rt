//! Room for the texts of a call, in bytes, counted before any of it is taken. None where a `usize` can't
//! count it: no memory has so much.
ghost use Rattle.std.specs.Prelude.{◌≡◌, ◌≤◌, ◌<◌, ◌+◌, ◌^◌, ℕ, Bool, IfOk, IfSome, length, map};
ghost use Rattle.sdk_call.specs.Body.{body_of, call_path, context, parted, step_member};
ghost use Rattle.sdk_call.specs.Head.{head, held, signature_line};

use crate::body::first_event;
use crate::parts::CallParts;
use kinds::StepEntry;
use lists::{Bytes, Memory};
use std::alloc::Global;

/// What a path has beside its parts: `?`, a `&` behind the query, `fnId=` and `&stepId=`.
const PATH_WORDS: usize = 15;

/// The most that a context has beside the run's id: its words, three digits and `false`.
const CONTEXT_WORDS: usize = 79;

/// What a body has beside its context, events and results.
const BODY_WORDS: usize = 56;

/// What a step has beside its name and result: two quotes, a colon and a comma.
const STEP_WORDS: usize = 4;

/// The most that a head has beside its parts, with a port of five digits and a length of twenty.
const HEAD_WORDS: usize = 121;

/// What the field of a signature has beside it.
const FIELD_WORDS: usize = 23;

/// A text that begins so, with this room.
pub(crate) fn begun(alloc: Global, room: Option<usize>, front: &[u8]) -> Result<Bytes, Memory>
    ensures { IfOk result (λ text. text ≡ front.now) }
{
    let Some(room) = room else {
        return Err(Memory);
    };
    let mut text = Bytes::with_room(alloc, room)?;
    text.extend_from_slice(front)?;
    Ok(text)
}

/// Room for a path with its query.
pub(crate) fn path_room(path: &[u8], query: &[u8], id: &[u8], target: &[u8]) -> Option<usize>
    ensures { IfSome result (λ room. length (call_path path.now query.now id.now target.now) ≤ room) }
{
    let registered = path.len().checked_add(query.len())?;
    let own = id.len().checked_add(target.len())?;
    let room = registered.checked_add(own)?.checked_add(PATH_WORDS)?;
    Some(room)
}

/// Room for a body.
pub(crate) fn body_room(parts: &CallParts<'_>) -> Option<usize>
    ensures { IfSome result (λ room. length (body_of parts.now) ≤ room) }
{
    let context = context_room(&parts.run_id, parts.attempt)?;
    let first = first_event(parts.events).len();
    let events = events_room(parts.events)?;
    let steps = steps_room(parts.steps)?;
    let texts = events.checked_add(first)?.checked_add(steps)?;
    let room = texts.checked_add(context)?.checked_add(BODY_WORDS)?;
    Some(room)
}

/// Room for a context, whether a step was planned or not.
fn context_room(run_id: &[u8], attempt: u8) -> Option<usize>
    ensures { IfSome result (λ room. (planned : Bool)
        → length (context run_id.now attempt planned) ≤ room) }
{
    let _ = attempt;
    let room = run_id.len().checked_add(CONTEXT_WORDS)?;
    Some(room)
}

/// Room for events with commas.
fn events_room(events: &[&[u8]]) -> Option<usize>
    ensures { IfSome result (λ room. length (parted (map (λ event. event.now) events.now)) ≤ room) }
{
    let mut room: usize = 0;
    for event in events {
        room = room.checked_add(event.len())?.checked_add(1)?;
    }
    Some(room)
}

/// Room for steps with commas.
fn steps_room(steps: &[StepEntry]) -> Option<usize>
    ensures { IfSome result (λ room. length (parted (map step_member steps.now)) ≤ room) }
{
    let mut room: usize = 0;
    for step in steps {
        room = room.checked_add(step_room(step)?)?;
    }
    Some(room)
}

/// Room for a step and a comma.
fn step_room(step: &StepEntry) -> Option<usize>
    ensures { IfSome result (λ room. length (step_member step.now) + 1 ≤ room) }
{
    let name = step.hash.as_slice().len();
    let room = step
        .result
        .len()
        .checked_add(name)?
        .checked_add(STEP_WORDS)?;
    Some(room)
}

/// Room for a head, whatever its port and the length of the body are.
pub(crate) fn head_room(host: &[u8], path: &[u8], signature: Option<&[u8]>) -> Option<usize>
    ensures { IfSome result (λ room. (port : ℕ) (size : ℕ) → port < 2 ^ 16 → size < 2 ^ 64
        → length (head host.now port path.now size (held signature.entry)) ≤ room) }
{
    let signed = signature_room(signature)?;
    let texts = host.len().checked_add(path.len())?;
    let room = texts.checked_add(signed)?.checked_add(HEAD_WORDS)?;
    Some(room)
}

/// Room for the field of a signature.
fn signature_room(signature: Option<&[u8]>) -> Option<usize>
    ensures { IfSome result (λ room. length (signature_line (held signature.entry)) ≤ room) }
{
    match signature {
        Some(signature) => signature.len().checked_add(FIELD_WORDS),
        None => Some(0),
    }
}
