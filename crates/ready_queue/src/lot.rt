// Sets of groups that are parked at one place.
ghost use Rattle.std.specs.Prelude.{◌≡◌, ◌∷◌, [], List, Some, None, OnOk, OnErr, IfOk};
ghost use Rattle.std.specs.Bool.{OnTrue, OnFalse};
ghost use Rattle.std.specs.Ordering.{nat_cmp};
ghost use Rattle.kinds.specs.Cells.{cell_cmp};
ghost use Rattle.ready_queue.specs.Held.{Group, AreFewer};
ghost use Rattle.ready_queue.specs.Parking.{at_cell, at_moment, with_group, Gains, AreAmong};

use crate::item::Group;
use crate::listed::Listed;
use kinds::Cell;
use lists::Memory;
use std::alloc::Global;
use std::collections::{BTreeMap, BTreeSet};
use std::marker::Model;

/// Groups that are parked at one place, each once.
#[derive(Drop)]
pub(crate) struct Lot {
    groups: BTreeSet<Group>,
}

impl Model for Lot {
    ghost use Rattle.std.specs.Prelude.{List};
    ghost use Rattle.std.specs.List.Sorted.{IsStrictlySortedBy};
    ghost use Rattle.kinds.specs.Queue.{group_cmp};
    ghost use Rattle.ready_queue.specs.Held.{Group};

    ghost Value = { List Group };

    ghost view = { λ l. l.groups.keys };

    ghost invariant = { λ l. IsStrictlySortedBy group_cmp l.groups.keys };
}

impl Lot {
    /// One group alone.
    fn of(alloc: Global, group: Group) -> Result<Lot, Memory>
        ensures { IfOk result (λ gs. gs ≡ group ∷ []) }
    {
        let mut groups = BTreeSet::new(alloc);
        groups.insert(group)?;
        Ok(Lot { groups })
    }

    /// Adds a group, unless it is there.
    fn insert(&mut self, group: Group) -> Result<(), Memory>
        ensures ok { OnOk result (self.new ≡ with_group group self.old) }
        ensures err { OnErr result (self.new ≡ self.old) }
    {
        self.groups.insert(group)?;
        Ok(())
    }

    /// The groups in order.
    pub(crate) fn set(&self) -> &BTreeSet<Group>
        ensures { result.now.keys ≡ self.now }
    {
        &self.groups
    }
}

fn copy_of_cell(cell: &Cell) -> Result<Cell, Memory>
    ensures { IfOk result (λ copy. copy ≡ cell.now) }
{
    Ok(cell.clone()?)
}

fn has_cell(full: &BTreeMap<Cell, Lot>, cell: &Cell) -> bool
    ensures none { OnFalse result (at_cell cell.now full.now.entries ≡ None) }
    ensures some { OnTrue result ((gs : List Group) × (at_cell cell.now full.now.entries ≡ Some gs)) }
{
    let Some(_groups) = full.get(cell) else {
        return false;
    };
    true
}

fn has_moment(later: &BTreeMap<u64, Lot>, moment: u64) -> bool
    ensures none { OnFalse result (at_moment moment later.now.entries ≡ None) }
    ensures some { OnTrue result ((gs : List Group) × (at_moment moment later.now.entries ≡ Some gs)) }
{
    let Some(_groups) = later.get(&moment) else {
        return false;
    };
    true
}

// Puts a group to those of a cell that has some.
#[tactic(auto, unfolding(crate::specs::Parking::Gains))]
fn extend_at(full: &mut BTreeMap<Cell, Lot>, cell: &Cell, group: Group) -> Result<(), Memory>
    requires { (gs : List Group) × (at_cell cell.now full.old.entries ≡ Some gs) }
    ensures ok { OnOk result (Gains cell_cmp cell.now group full.old.entries full.new.entries) }
    ensures err { OnErr result (full.new.entries ≡ full.old.entries) }
{
    if let Some(groups) = full.get_mut(cell) {
        match groups.insert(group) {
            Ok(()) => {}
            Err(_) => return Err(Memory),
        }
    }
    Ok(())
}

// Puts a group to those of a moment that has some.
#[tactic(auto, unfolding(crate::specs::Parking::Gains))]
fn extend_till(later: &mut BTreeMap<u64, Lot>, moment: u64, group: Group) -> Result<(), Memory>
    requires { (gs : List Group) × (at_moment moment later.old.entries ≡ Some gs) }
    ensures ok { OnOk result (Gains nat_cmp moment group later.old.entries later.new.entries) }
    ensures err { OnErr result (later.new.entries ≡ later.old.entries) }
{
    if let Some(groups) = later.get_mut(&moment) {
        match groups.insert(group) {
            Ok(()) => {}
            Err(_) => return Err(Memory),
        }
    }
    Ok(())
}

// Puts a group to a cell that has none.
fn start_at(
    full: &mut BTreeMap<Cell, Lot>,
    alloc: Global,
    cell: &Cell,
    group: Group,
) -> Result<(), Memory>
    requires { at_cell cell.now full.old.entries ≡ None }
    ensures ok { OnOk result (Gains cell_cmp cell.now group full.old.entries full.new.entries) }
    ensures err { OnErr result (full.new.entries ≡ full.old.entries) }
{
    let key = copy_of_cell(cell)?;
    let groups = Lot::of(alloc, group)?;
    full.insert(key, groups)?;
    Ok(())
}

// Puts a group to a moment that has none.
fn start_till(
    later: &mut BTreeMap<u64, Lot>,
    alloc: Global,
    moment: u64,
    group: Group,
) -> Result<(), Memory>
    requires { at_moment moment later.old.entries ≡ None }
    ensures ok { OnOk result (Gains nat_cmp moment group later.old.entries later.new.entries) }
    ensures err { OnErr result (later.new.entries ≡ later.old.entries) }
{
    let groups = Lot::of(alloc, group)?;
    later.insert(moment, groups)?;
    Ok(())
}

/// Puts a group to those of a cell.
pub(crate) fn put_at(
    full: &mut BTreeMap<Cell, Lot>,
    alloc: Global,
    cell: &Cell,
    group: Group,
) -> Result<(), Memory>
    ensures ok { OnOk result (Gains cell_cmp cell.now group full.old.entries full.new.entries) }
    ensures err { OnErr result (full.new.entries ≡ full.old.entries) }
{
    if has_cell(full, cell) {
        extend_at(full, cell, group)
    } else {
        start_at(full, alloc, cell, group)
    }
}

/// Puts a group to those of a moment.
pub(crate) fn put_till(
    later: &mut BTreeMap<u64, Lot>,
    alloc: Global,
    moment: u64,
    group: Group,
) -> Result<(), Memory>
    ensures ok { OnOk result (Gains nat_cmp moment group later.old.entries later.new.entries) }
    ensures err { OnErr result (later.new.entries ≡ later.old.entries) }
{
    if has_moment(later, moment) {
        extend_till(later, moment, group)
    } else {
        start_till(later, alloc, moment, group)
    }
}

/// Looks at groups again.
pub(crate) fn unpark_all(listed: &mut Listed, groups: &BTreeSet<Group>) -> Result<(), Memory>
    ensures items { listed.new.items ≡ listed.old.items }
    ensures fewer { AreFewer listed.old.ready listed.new.ready }
    ensures ok { OnOk result (AreAmong listed.new.ready groups.now.keys []) }
{
    for group in groups.iter() {
        listed.unpark(group)?;
    }
    Ok(())
}
