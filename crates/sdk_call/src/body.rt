// The path and the body of a call.
ghost use Rattle.std.specs.Prelude.{◌≡◌, ◌++◌, ◌∷◌, [], IfOk, OnOk, codes, map, ◌==◌, if◌then◌else◌};
ghost use Rattle.sdk_call.specs.Body.{body_of, context, first_of, parted, path_of, step_member};

use crate::parts::{CallParts, CallText};
use crate::query::push_query;
use crate::room::{begun, body_room, path_room};
use kinds::StepEntry;
use lists::{Bytes, Memory};
use std::alloc::Global;

/// The path and the body of a call. The room of each is taken once.
pub fn call_text(alloc: Global, parts: &CallParts<'_>) -> Result<CallText, Memory>
    ensures path { IfOk result (λ text. text.path ≡ path_of parts.now) }
    ensures body { IfOk result (λ text. text.body ≡ body_of parts.now) }
{
    let path = path_text(alloc, parts)?;
    let body = body_text(alloc, parts)?;
    Ok(CallText { path, body })
}

fn path_text(alloc: Global, parts: &CallParts<'_>) -> Result<Bytes, Memory>
    ensures { IfOk result (λ path. path ≡ path_of parts.now) }
{
    let registered = parts.function.path.as_slice();
    let query = parts.function.query.as_slice();
    let id = parts.function.id.as_slice();
    let room = path_room(registered, query, id, parts.target);
    let mut path = begun(alloc, room, registered)?;
    path.push(b'?')?;
    push_query(&mut path, query, id, parts.target)?;
    Ok(path)
}

fn body_text(alloc: Global, parts: &CallParts<'_>) -> Result<Bytes, Memory>
    ensures { IfOk result (λ body. body ≡ body_of parts.now) }
{
    let mut body = begun(alloc, body_room(parts), b"{\"ctx\":")?;
    push_context(&mut body, &parts.run_id, parts.attempt, parts.planned)?;
    body.extend_from_slice(b",\"event\":")?;
    body.extend_from_slice(first_event(parts.events))?;
    body.extend_from_slice(b",\"events\":[")?;
    push_events(&mut body, parts.events)?;
    body.extend_from_slice(b"],\"steps\":{")?;
    push_steps(&mut body, parts.steps)?;
    body.extend_from_slice(b"},\"use_api\":false}")?;
    Ok(body)
}

pub(crate) fn first_event<'a>(events: &'a [&'a [u8]]) -> &'a [u8]
    ensures { result.now ≡ first_of (map (λ event. event.now) events.now) }
{
    match events.first() {
        Some(event) => event,
        None => &[],
    }
}

fn push_context(body: &mut Bytes, run_id: &[u8], attempt: u8, planned: bool) -> Result<(), Memory>
    ensures { OnOk result (body.new ≡ body.old ++ context run_id.now attempt planned) }
{
    body.extend_from_slice(b"{\"run_id\":\"")?;
    body.extend_from_slice(run_id)?;
    body.extend_from_slice(b"\",\"attempt\":")?;
    body.push_decimal(u64::from(attempt))?;
    body.extend_from_slice(b",\"disable_immediate_execution\":")?;
    body.extend_from_slice(truth(planned))?;
    body.extend_from_slice(b",\"use_api\":false}")?;
    Ok(())
}

fn truth(planned: bool) -> &'static [u8]
    ensures { result.now ≡ (if planned then codes "true" else codes "false") }
{
    if planned { b"true" } else { b"false" }
}

fn push_events(body: &mut Bytes, events: &[&[u8]]) -> Result<(), Memory>
    ensures { OnOk result (body.new ≡ body.old ++ parted (map (λ event. event.now) events.now)) }
{
    for (index, event) in events.iter().enumerate() {
        push_comma(body, index == 0)?;
        body.extend_from_slice(event)?;
    }
    Ok(())
}

fn push_steps(body: &mut Bytes, steps: &[StepEntry]) -> Result<(), Memory>
    ensures { OnOk result (body.new ≡ body.old ++ parted (map step_member steps.now)) }
{
    for (index, step) in steps.iter().enumerate() {
        push_comma(body, index == 0)?;
        push_step(body, step)?;
    }
    Ok(())
}

fn push_step(body: &mut Bytes, step: &StepEntry) -> Result<(), Memory>
    ensures { OnOk result (body.new ≡ body.old ++ step_member step.now) }
{
    body.extend_from_slice(b"\"")?;
    body.extend_from_slice(step.hash.as_slice())?;
    body.extend_from_slice(b"\":")?;
    body.extend_from_slice(step.result.as_slice())
}

/// A comma stands before each text but the first.
fn push_comma(body: &mut Bytes, is_first: bool) -> Result<(), Memory>
    ensures { OnOk result (body.new ≡ body.old ++ (if is_first then [] else 44 ∷ [])) }
{
    if !is_first {
        body.push(b',')?;
    }
    Ok(())
}
