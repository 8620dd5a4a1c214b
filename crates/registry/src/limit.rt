// Concurrency limits.
ghost use Rattle.lists.specs.Starved.{OrStarved};
ghost use Rattle.std.specs.Prelude.{◌≡◌, ◌++◌, IfOk, OnOk, codes, option_to_list};
ghost use Rattle.serde_json.specs.View.{items_view, view};
ghost use Rattle.registry.specs.Flows.{bare_limit, counted, limit_of, limits_in, listed_limits, named_scope, one_limit, scope_of};
ghost use Rattle.registry.specs.Members.{found_or, part};
ghost use Rattle.registry.specs.declared.flaw.Flaw.TheVariants as flaw;

use crate::expression::condition_in;
use crate::flaw::Flaw;
use crate::part::{part, whole, whole_in};
use kinds::{Limit, Scope};
use lists::{Items, Memory};
use serde_json::Value;
use std::alloc::Global;

/// The greatest number of calls, or of runs in a period.
pub(crate) const MOST_LIMIT: u64 = 1_000_000;

/// The concurrency limits of a function.
#[tactic(auto, unfolding(crate::specs::Flows::limits_in))]
pub(crate) fn limits_in(alloc: Global, function: &Value) -> Result<Items<Limit>, Flaw>
    ensures { OrStarved flaw.Memory (limits_in (view function.now)) result }
{
    let Some(value) = part(function, "concurrency") else {
        return Ok(Items::new(alloc));
    };
    match value.as_array() {
        Some(items) => listed_limits(alloc, items.as_slice()),
        None => Ok(alone(alloc, one_limit(alloc, value)?)?),
    }
}

/// The limit that an object or a number is.
fn one_limit(alloc: Global, value: &Value) -> Result<Option<Limit>, Flaw>
    ensures { OrStarved flaw.Memory (one_limit (view value.now)) result }
{
    if value.is_object() {
        limit_of(alloc, 0, value)
    } else {
        bare_limit(value)
    }
}

fn alone(alloc: Global, limit: Option<Limit>) -> Result<Items<Limit>, Memory>
    ensures { IfOk result (λ limits. limits ≡ option_to_list limit) }
{
    let mut limits = Items::new(alloc);
    add(&mut limits, limit)?;
    Ok(limits)
}

fn add(limits: &mut Items<Limit>, limit: Option<Limit>) -> Result<(), Memory>
    ensures { OnOk result (limits.new ≡ limits.old ++ option_to_list limit) }
{
    match limit {
        Some(limit) => limits.push(limit),
        None => Ok(()),
    }
}

/// The limits of an array, at most two.
fn listed_limits(alloc: Global, items: &[Value]) -> Result<Items<Limit>, Flaw>
    ensures { OrStarved flaw.Memory (listed_limits (items_view items.now)) result }
{
    match items {
        [] => Ok(Items::new(alloc)),
        [only] => Ok(alone(alloc, limit_of(alloc, 0, only)?)?),
        [first, second] => {
            let first = limit_of(alloc, 0, first)?;
            let second = limit_of(alloc, 1, second)?;
            Ok(both(alloc, first, second)?)
        }
        _ => Err(Flaw::TooManyLimits),
    }
}

fn both(alloc: Global, first: Option<Limit>, second: Option<Limit>) -> Result<Items<Limit>, Memory>
    ensures { IfOk result (λ limits. limits ≡ option_to_list first ++ option_to_list second) }
{
    let mut limits = alone(alloc, first)?;
    add(&mut limits, second)?;
    Ok(limits)
}

/// The limit that an object is, in this place among the function's limits; one of 0 is none.
#[tactic(auto, unfolding(crate::specs::Flows::limit_of))]
fn limit_of(alloc: Global, place: u8, value: &Value) -> Result<Option<Limit>, Flaw>
    ensures { OrStarved flaw.Memory (limit_of place (view value.now)) result }
{
    let Some(limit) = whole_in(value, "limit", 0, MOST_LIMIT) else {
        return Err(Flaw::Limit);
    };
    let scope = scope_of(value)?;
    let key = condition_in(alloc, value, "key")?;
    Ok(counted(Limit {
        place,
        limit: limit as u32,
        scope,
        key,
    }))
}

/// The limit that a number is.
#[tactic(auto, unfolding(crate::specs::Flows::bare_limit))]
fn bare_limit(value: &Value) -> Result<Option<Limit>, Flaw>
    ensures { result ≡ bare_limit (view value.now) }
{
    match whole(value, 0, MOST_LIMIT) {
        Some(limit) => Ok(counted(Limit {
            place: 0,
            limit: limit as u32,
            scope: Scope::Own,
            key: None,
        })),
        None => Err(Flaw::Limit),
    }
}

/// A limit of 0 is none.
fn counted(limit: Limit) -> Option<Limit>
    ensures { result ≡ counted limit }
{
    if limit.limit == 0 { None } else { Some(limit) }
}

/// Whose calls a limit counts.
fn scope_of(value: &Value) -> Result<Scope, Flaw>
    ensures { result ≡ scope_of (part (codes "scope") (view value.now)) }
{
    let Some(scope) = part(value, "scope") else {
        return Ok(Scope::Own);
    };
    match scope.as_str() {
        Some(text) => named_scope(text),
        None => Err(Flaw::Limit),
    }
}

fn named_scope(text: &str) -> Result<Scope, Flaw>
    ensures { result ≡ found_or flaw.Limit (named_scope text.now) }
{
    match text {
        "fn" => Ok(Scope::Own),
        "env" => Ok(Scope::Env),
        "account" => Ok(Scope::Account),
        _ => Err(Flaw::Limit),
    }
}
