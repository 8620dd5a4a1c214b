// The least admissible item, where all items are looked at.
ghost use Rattle.std.specs.Prelude.{◌≡◌, ◌+◌, ◌≤◌, length, filter, ◌&&◌};
ghost use Rattle.std.specs.BTreeMap.{values};
ghost use Rattle.std.specs.Bool.{OnTrue, OnFalse};
ghost use Rattle.std.specs.List.{AllByRecursion};
ghost use Rattle.kinds.specs.Cells.{IsStart, last_moment};
ghost use Rattle.kinds.specs.Queue.{is_admissible};
ghost use Rattle.kinds.specs.declared.store.Item.{Item};
ghost use Rattle.ready_queue.specs.Heads.{leads, joined, rank, least_rank, second, IsStep};

use crate::Gate;
use crate::boxed::BoxedItem;
use crate::item::{has_lesser, start_of};
use kinds::{Item, Steps};
use std::collections::BTreeMap;
use std::sync::ledger::Ledger;

fn rank_of(item: &Item) -> (i64, u64)
    ensures { result ≡ rank item.now }
{
    (item.score, item.number)
}

/// What was found so far comes no later than the item.
fn stops(best: Option<(i64, u64)>, item: &Item) -> bool
    ensures stops { OnTrue result (joined best (Some (rank item.now)) ≡ best) }
    ensures goes_on { OnFalse result (joined best (Some (rank item.now)) ≡ Some (rank item.now)) }
{
    match best {
        Some((score, number)) => !score
            .cmp(&item.score)
            .then(number.cmp(&item.number))
            .is_gt(),
        None => false,
    }
}

/// The first of the best so far and an item, where this is due, first of its group, and the gate is
/// open.
fn step<G: Gate, L: Ledger>(
    items: &BTreeMap<u64, BoxedItem>,
    item: &Item,
    best: Option<(i64, u64)>,
    t: u64,
    gate: &G,
    steps: &mut Steps<L>,
) -> Option<(i64, u64)>
    requires start { IsStart item.now.start }
    requires moment { t ≤ last_moment }
    ensures { IsStep (leads t (values items.now)) (is_admissible (G.is_open gate.now t) t)
        item.now best result steps.old steps.new }
{
    if item.due > t {
        return best;
    }
    if stops(best, item) {
        return best;
    }
    if has_lesser(items, item, t) {
        return best;
    }
    if gate.open(&item.cells, start_of(item), t, steps) {
        Some(rank_of(item))
    } else {
        best
    }
}

/// The first of the due items for which the gate is open. It is asked for the first due item of each
/// group.
pub(crate) fn least_open<G: Gate, L: Ledger>(
    items: &BTreeMap<u64, BoxedItem>,
    t: u64,
    gate: &G,
    steps: &mut Steps<L>,
) -> Option<(i64, u64)>
    requires starts { AllByRecursion (λ (i : Item). IsStart i.start) (values items.now) }
    requires moment { t ≤ last_moment }
    ensures least { result
        ≡ least_rank
        (λ i. leads t (values items.now) i && is_admissible (G.is_open gate.now t) t i)
        (values items.now) }
    ensures asked { steps.new
        ≤ steps.old + length (filter (leads t (values items.now)) (values items.now)) }
{
    let mut best: Option<(i64, u64)> = None;
    for item in items.values() {
        best = step(items, item.item(), best, t, gate, steps);
    }
    best
}

pub(crate) fn second(best: Option<(i64, u64)>) -> Option<u64>
    ensures { result ≡ second best }
{
    match best {
        Some((_, number)) => Some(number),
        None => None,
    }
}
