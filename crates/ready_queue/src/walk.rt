// The least admissible item, where each group is looked at once.
ghost use Rattle.std.specs.Prelude.{◌≡◌, ◌+◌, ◌≤◌, ℕ, length, Some};
ghost use Rattle.std.specs.BTreeMap.{is_at};
ghost use Rattle.std.specs.List.Sorted.{IsStrictlySortedBy};
ghost use Rattle.std.specs.Map.{lookup};
ghost use Rattle.std.specs.Ordering.{nat_cmp};
ghost use Rattle.kinds.specs.Cells.{IsStart, last_moment};
ghost use Rattle.ready_queue.specs.Keys.{key_cmp, at_most, stops, IsHead, IsLooked};
ghost use Rattle.ready_queue.specs.Keys.{IsLeastOpen, AreAlike, Lead};
ghost use Rattle.ready_queue.specs.Opens.{opens, HaveStarts};

use crate::Gate;
use crate::boxed::{BoxedItem, find_at};
use crate::item::start_of;
use kinds::Steps;
use std::collections::{BTreeMap, BTreeSet};
use std::sync::ledger::Ledger;

/// The first (score, number) isn't after the second.
#[tactic(auto, unfolding(crate::specs::Keys::at_most))]
pub(crate) fn comes_first(a: (u64, u64), b: (u64, u64)) -> bool
    ensures { result ≡ at_most a b }
{
    a.0 < b.0 || a.0 == b.0 && a.1 <= b.1
}

/// Nothing from this entry on comes before what was found.
fn stops(best: Option<(u64, u64)>, entry: (u64, u64)) -> bool
    ensures { result ≡ stops best entry }
{
    match best {
        Some(other) => comes_first(other, entry),
        None => false,
    }
}

/// The least (score, number) of a group.
pub(crate) fn head(keys: &BTreeSet<(u64, u64, u64)>, group: u64) -> Option<(u64, u64)>
    ensures { IsHead keys.now.keys group result }
{
    let Some(first) = keys.range((group, 0, 0)..).next() else {
        return None;
    };
    let (found, score, number) = *first;
    if found == group {
        Some((score, number))
    } else {
        None
    }
}

/// The gate is open for the item of this number.
fn is_open<G: Gate, L: Ledger>(
    items: &BTreeMap<u64, BoxedItem>,
    number: u64,
    t: u64,
    gate: &G,
    steps: &mut Steps<L>,
) -> bool
    requires starts { HaveStarts items.now.entries }
    requires moment { t ≤ last_moment }
    ensures told { result ≡ opens (G.is_open gate.now t) items.now.entries number }
    ensures asked { steps.new ≤ steps.old + 1 }
{
    match find_at(items, number) {
        Some(item) => gate.open(&item.cells, start_of(item), t, steps),
        None => false,
    }
}

/// The first of the best so far and of the head of a group, where the gate is open for it.
fn look<G: Gate, L: Ledger>(
    items: &BTreeMap<u64, BoxedItem>,
    keys: &BTreeSet<(u64, u64, u64)>,
    group: u64,
    best: Option<(u64, u64)>,
    t: u64,
    gate: &G,
    steps: &mut Steps<L>,
) -> Option<(u64, u64)>
    requires alike { AreAlike (opens (G.is_open gate.now t) items.now.entries) keys.now.keys }
    requires starts { HaveStarts items.now.entries }
    requires moment { t ≤ last_moment }
    ensures looked { IsLooked (opens (G.is_open gate.now t) items.now.entries)
        keys.now.keys group best result }
    ensures asked { steps.new ≤ steps.old + 1 }
{
    let Some(least) = head(keys, group) else {
        return best;
    };
    if stops(best, least) {
        return best;
    }
    if is_open(items, least.1, t, gate, steps) {
        Some(least)
    } else {
        best
    }
}

/// The least key for whose item the gate is open: the groups in order of their places, one look at each.
pub(crate) fn least_open<G: Gate, L: Ledger>(
    items: &BTreeMap<u64, BoxedItem>,
    keys: &BTreeSet<(u64, u64, u64)>,
    places: &BTreeSet<(u64, u64, u64)>,
    t: u64,
    gate: &G,
    steps: &mut Steps<L>,
) -> Option<(u64, u64)>
    requires alike { AreAlike (opens (G.is_open gate.now t) items.now.entries) keys.now.keys }
    requires starts { HaveStarts items.now.entries }
    requires moment { t ≤ last_moment }
    requires lead { Lead (opens (G.is_open gate.now t) items.now.entries) places.now.keys keys.now.keys }
    ensures least { IsLeastOpen (opens (G.is_open gate.now t) items.now.entries) keys.now.keys result }
    ensures asked { steps.new ≤ steps.old + length places.now.keys }
    ensures ordered { IsStrictlySortedBy key_cmp places.now.keys }
{
    let mut best: Option<(u64, u64)> = None;
    for entry in places {
        let (score, number, group) = *entry;
        if stops(best, (score, number)) {
            return best;
        }
        best = look(items, keys, group, best, t, gate, steps);
    }
    best
}
