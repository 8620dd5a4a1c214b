// How the runs of a function are limited, gathered and cancelled.
ghost use Rattle.lists.specs.Starved.{OrStarved};
ghost use Rattle.std.specs.Prelude.{◌≡◌};
ghost use Rattle.serde_json.specs.View.{view};
ghost use Rattle.registry.specs.Flows.{priority_in, priority_of};
ghost use Rattle.registry.specs.Functions.{admission_of, batch_at, beside_batch, cancels_at, debounce_at, fits_batch, flow_of, limits_at, priority_at, throttle_at, unless_there, windows_of};
ghost use Rattle.registry.specs.declared.fault.RegisterFault.TheVariants as fault;
ghost use Rattle.registry.specs.declared.flaw.Flaw.TheVariants.{Memory};

use crate::cancel::cancels_in;
use crate::expression::expression_of;
use crate::flaw::{Flaw, blame};
use crate::limit::limits_in;
use crate::part::{first_present, part};
use crate::throttle::throttle_in;
use crate::window::{batch_in, debounce_in};
use crate::{Member, RegisterFault};
use expr::Expr;
use kinds::{Batch, CancelEntry, Debounce, Limit, Throttle};
use lists::Items;
use serde_json::Value;
use std::alloc::Global;

/// How many calls of a function are open, and how often its runs start.
#[derive(Drop)]
pub(crate) struct Admission {
    pub limits: Items<Limit>,
    pub throttle: Option<Throttle>,
}

/// Which events a run has.
#[derive(Drop)]
pub(crate) struct Windows {
    pub debounce: Option<Debounce>,
    pub batch: Option<Batch>,
}

/// When the runs of a function start, and what cancels them.
#[derive(Drop)]
pub(crate) struct Flow {
    pub admission: Admission,
    pub windows: Windows,
    pub priority: Option<Expr>,
    pub cancels: Items<CancelEntry>,
}

#[tactic(auto, unfolding(crate::specs::Functions::flow_of))]
pub(crate) fn flow_of(alloc: Global, index: u64, function: &Value) -> Result<Flow, RegisterFault>
    ensures { OrStarved fault.Memory (flow_of index (view function.now)) result }
{
    let admission = admission_of(alloc, index, function)?;
    let windows = windows_of(alloc, index, function)?;
    let priority = priority_at(alloc, index, function)?;
    let cancels = cancels_at(alloc, index, function)?;
    fits_batch(index, function)?;
    Ok(Flow {
        admission,
        windows,
        priority,
        cancels,
    })
}

#[tactic(auto, unfolding(crate::specs::Functions::admission_of))]
fn admission_of(alloc: Global, index: u64, function: &Value) -> Result<Admission, RegisterFault>
    ensures { OrStarved fault.Memory (admission_of index (view function.now)) result }
{
    let limits = limits_at(alloc, index, function)?;
    let throttle = throttle_at(alloc, index, function)?;
    Ok(Admission { limits, throttle })
}

#[tactic(auto, unfolding(crate::specs::Functions::windows_of))]
fn windows_of(alloc: Global, index: u64, function: &Value) -> Result<Windows, RegisterFault>
    ensures { OrStarved fault.Memory (windows_of index (view function.now)) result }
{
    let debounce = debounce_at(alloc, index, function)?;
    let batch = batch_at(alloc, index, function)?;
    Ok(Windows { debounce, batch })
}

#[tactic(auto, unfolding(crate::specs::Functions::limits_at))]
fn limits_at(alloc: Global, index: u64, function: &Value) -> Result<Items<Limit>, RegisterFault>
    ensures { OrStarved fault.Memory (limits_at index (view function.now)) result }
{
    blame(index, Member::Concurrency, limits_in(alloc, function))
}

#[tactic(auto, unfolding(crate::specs::Functions::throttle_at))]
fn throttle_at(
    alloc: Global,
    index: u64,
    function: &Value,
) -> Result<Option<Throttle>, RegisterFault>
    ensures { OrStarved fault.Memory (throttle_at index (view function.now)) result }
{
    blame(index, Member::Throttle, throttle_in(alloc, function))
}

#[tactic(auto, unfolding(crate::specs::Functions::debounce_at))]
fn debounce_at(
    alloc: Global,
    index: u64,
    function: &Value,
) -> Result<Option<Debounce>, RegisterFault>
    ensures { OrStarved fault.Memory (debounce_at index (view function.now)) result }
{
    blame(index, Member::Debounce, debounce_in(alloc, function))
}

#[tactic(auto, unfolding(crate::specs::Functions::batch_at))]
fn batch_at(alloc: Global, index: u64, function: &Value) -> Result<Option<Batch>, RegisterFault>
    ensures { OrStarved fault.Memory (batch_at index (view function.now)) result }
{
    blame(index, Member::BatchEvents, batch_in(alloc, function))
}

#[tactic(auto, unfolding(crate::specs::Functions::priority_at))]
fn priority_at(alloc: Global, index: u64, function: &Value) -> Result<Option<Expr>, RegisterFault>
    ensures { OrStarved fault.Memory (priority_at index (view function.now)) result }
{
    blame(index, Member::Priority, priority_in(alloc, function))
}

#[tactic(auto, unfolding(crate::specs::Functions::cancels_at))]
fn cancels_at(
    alloc: Global,
    index: u64,
    function: &Value,
) -> Result<Items<CancelEntry>, RegisterFault>
    ensures { OrStarved fault.Memory (cancels_at index (view function.now)) result }
{
    blame(index, Member::Cancel, cancels_in(alloc, function))
}

/// Nothing, where all members go with batches, or there are none.
#[tactic(auto, unfolding(crate::specs::Functions::fits_batch))]
fn fits_batch(index: u64, function: &Value) -> Result<(), RegisterFault>
    ensures { result ≡ fits_batch index (view function.now) }
{
    unless_there(index, Flaw::BatchWith, beside_batch(function))
}

/// Nothing, where this member isn't there; else it is at fault.
pub(crate) fn unless_there(
    index: u64,
    flaw: Flaw,
    member: Option<Member>,
) -> Result<(), RegisterFault>
    ensures { result ≡ unless_there index flaw member }
{
    match member {
        Some(member) => Err(flaw.of(index, member)),
        None => Ok(()),
    }
}

/// The first member that doesn't go with batches, of a function that has them.
fn beside_batch(function: &Value) -> Option<Member>
    ensures { result ≡ beside_batch (view function.now) }
{
    let _batch = part(function, "batchEvents")?;
    first_present(
        &[Member::Cancel, Member::Priority, Member::Debounce],
        function,
    )
}

/// The priority of a function, where it has one.
fn priority_in(alloc: Global, function: &Value) -> Result<Option<Expr>, Flaw>
    ensures { OrStarved Memory (priority_in (view function.now)) result }
{
    match part(function, "priority") {
        Some(value) => Ok(Some(priority_of(alloc, value)?)),
        None => Ok(None),
    }
}

#[tactic(auto, unfolding(crate::specs::Flows::priority_of))]
fn priority_of(alloc: Global, value: &Value) -> Result<Expr, Flaw>
    ensures { OrStarved Memory (priority_of (view value.now)) result }
{
    match part(value, "run") {
        Some(run) => expression_of(alloc, run),
        None => Err(Flaw::Expression { at: 0 }),
    }
}
