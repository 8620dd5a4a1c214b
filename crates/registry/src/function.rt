// One function of a registration.
ghost use Rattle.lists.specs.Starved.{OrStarved};
ghost use Rattle.std.specs.Prelude.{◌≡◌};
ghost use Rattle.std.specs.List.{list_all};
ghost use Rattle.serde_json.specs.View.{view};
ghost use Rattle.registry.specs.Functions.{address_at, function_of, function_with, id_at, id_in, is_id, is_id_byte, is_taken, members_of, name_at, name_in, readable, retries_at, triggers_at};
ghost use Rattle.registry.specs.declared.fault.RegisterFault.TheVariants as fault;
ghost use Rattle.registry.specs.declared.flaw.Flaw.TheVariants.{Memory};

use crate::address::Address;
use crate::flaw::{Flaw, blame};
use crate::flow::{Flow, flow_of, unless_there};
use crate::part::{first_present, part};
use crate::steps::{address_in, retries_in};
use crate::trigger::triggers_in;
use crate::{Member, RegisterFault};
use kinds::{Function, Trigger};
use lists::{Bytes, Items};
use serde_json::Value;
use std::alloc::Global;

/// The greatest length of a function's id.
const MOST_ID: usize = 128;

/// The function that a value is, behind these in the body.
pub(crate) fn function_of(
    alloc: Global,
    earlier: &[Function],
    value: &Value,
) -> Result<Function, RegisterFault>
    ensures { OrStarved fault.Memory (function_of earlier.now (view value.now)) result }
{
    members_of(alloc, earlier.len() as u64, earlier, value)
}

#[tactic(auto, unfolding(crate::specs::Functions::members_of))]
fn members_of(
    alloc: Global,
    index: u64,
    earlier: &[Function],
    value: &Value,
) -> Result<Function, RegisterFault>
    ensures { OrStarved fault.Memory (members_of index earlier.now (view value.now)) result }
{
    readable(index, value)?;
    let id = id_at(alloc, index, earlier, value)?;
    name_at(index, value)?;
    let triggers = triggers_at(alloc, index, value)?;
    let address = address_at(alloc, index, value)?;
    let retries = retries_at(index, value)?;
    let flow = flow_of(alloc, index, value)?;
    Ok(function_with(id, triggers, address, retries, flow))
}

fn function_with(
    id: Bytes,
    triggers: Items<Trigger>,
    address: Address,
    retries: u8,
    flow: Flow,
) -> Function
    ensures { result ≡ function_with id triggers address retries flow }
{
    Function {
        id,
        triggers,
        host: address.host,
        port: address.port,
        path: address.path,
        query: address.query,
        retries,
        limits: flow.admission.limits,
        throttle: flow.admission.throttle,
        debounce: flow.windows.debounce,
        batch: flow.windows.batch,
        priority: flow.priority,
        cancels: flow.cancels,
    }
}

#[tactic(auto, unfolding(crate::specs::Functions::id_at))]
fn id_at(
    alloc: Global,
    index: u64,
    earlier: &[Function],
    function: &Value,
) -> Result<Bytes, RegisterFault>
    ensures { OrStarved fault.Memory (id_at index earlier.now (view function.now)) result }
{
    blame(index, Member::Id, id_in(alloc, earlier, function))
}

#[tactic(auto, unfolding(crate::specs::Functions::name_at))]
fn name_at(index: u64, function: &Value) -> Result<(), RegisterFault>
    ensures { result ≡ name_at index (view function.now) }
{
    blame(index, Member::Name, name_in(function))
}

#[tactic(auto, unfolding(crate::specs::Functions::triggers_at))]
fn triggers_at(alloc: Global, index: u64, function: &Value) -> Result<Items<Trigger>, RegisterFault>
    ensures { OrStarved fault.Memory (triggers_at index (view function.now)) result }
{
    blame(index, Member::Triggers, triggers_in(alloc, function))
}

#[tactic(auto, unfolding(crate::specs::Functions::address_at))]
fn address_at(alloc: Global, index: u64, function: &Value) -> Result<Address, RegisterFault>
    ensures { OrStarved fault.Memory (address_at index (view function.now)) result }
{
    blame(index, Member::Steps, address_in(alloc, function))
}

#[tactic(auto, unfolding(crate::specs::Functions::retries_at))]
fn retries_at(index: u64, function: &Value) -> Result<u8, RegisterFault>
    ensures { result ≡ retries_at index (view function.now) }
{
    blame(index, Member::Steps, retries_in(function))
}

/// Nothing, where the value is an object without members that aren't read yet.
#[tactic(auto, unfolding(crate::specs::Functions::readable))]
fn readable(index: u64, value: &Value) -> Result<(), RegisterFault>
    ensures { result ≡ readable index (view value.now) }
{
    if !value.is_object() {
        return Err(Flaw::Function.of(index, Member::Function));
    }
    let later = [
        Member::RateLimit,
        Member::Idempotency,
        Member::Singleton,
        Member::Timeouts,
    ];
    unless_there(index, Flaw::Function, first_present(&later, value))
}

/// The id of a function, which none of the earlier ones has.
#[tactic(auto, unfolding(crate::specs::Functions::id_in))]
fn id_in(alloc: Global, earlier: &[Function], function: &Value) -> Result<Bytes, Flaw>
    ensures { OrStarved Memory (id_in earlier.now (view function.now)) result }
{
    let Some(value) = part(function, "id") else {
        return Err(Flaw::Function);
    };
    let Some(text) = value.as_str() else {
        return Err(Flaw::Function);
    };
    let id = text.as_bytes();
    if !is_id(id) || is_taken(earlier, id) {
        return Err(Flaw::Function);
    }
    Ok(Bytes::from_slice(alloc, id)?)
}

/// One to 128 letters, digits, `-`, `_` and `.`.
fn is_id(text: &[u8]) -> bool
    ensures { result ≡ is_id text.now }
{
    !text.is_empty() && text.len() <= MOST_ID && are_id_bytes(text)
}

fn are_id_bytes(text: &[u8]) -> bool
    ensures { result ≡ list_all is_id_byte text.now }
{
    text.iter().all(|byte| is_id_byte(*byte))
}

fn is_id_byte(byte: u8) -> bool
    ensures { result ≡ is_id_byte byte }
{
    byte.is_ascii_alphanumeric() || byte == b'-' || byte == b'_' || byte == b'.'
}

/// An earlier function has this id.
fn is_taken(earlier: &[Function], id: &[u8]) -> bool
    ensures { result ≡ is_taken earlier.now id.now }
{
    earlier.iter().any(|function| function.id.as_slice() == id)
}

/// Nothing, where the name is absent or a text.
fn name_in(function: &Value) -> Result<(), Flaw>
    ensures { result ≡ name_in (view function.now) }
{
    match part(function, "name") {
        Some(name) if !name.is_string() => Err(Flaw::Function),
        _ => Ok(()),
    }
}
