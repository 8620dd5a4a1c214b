// Items compared, and the groups that they are of.
ghost use Rattle.std.specs.Prelude.{◌≡◌, ◌≤◌, nat_le, ◌&&◌, IfOk};
ghost use Rattle.std.specs.BTreeMap.{values};
ghost use Rattle.std.specs.Option.{option_copied};
ghost use Rattle.std.specs.Ordering.{is_lt};
ghost use Rattle.kinds.specs.Queue.{item_cmp, same_group, group_of};
ghost use Rattle.ready_queue.specs.Heads.{has_lesser};
ghost use Rattle.ready_queue.specs.Store.{IsScore, lifted};

use crate::boxed::BoxedItem;
use kinds::{Cell, CellLimits, Item, Shared};
use lists::Memory;
use std::collections::BTreeMap;

/// The first comes before the second.
pub(crate) fn comes_before(a: &Item, b: &Item) -> bool
    ensures { result ≡ is_lt (item_cmp a.now b.now) }
{
    a.score.cmp(&b.score).then(a.number.cmp(&b.number)).is_lt()
}

/// The items have the same cells with limits, and the same start.
pub(crate) fn same_group(a: &Item, b: &Item) -> bool
    ensures { result ≡ same_group a.now b.now }
{
    a.cells.cmp(&b.cells).then(a.start.cmp(&b.start)).is_eq()
}

fn is_lesser(other: &Item, item: &Item, t: u64) -> bool
    ensures { result
        ≡ (nat_le other.now.due t
        && (is_lt (item_cmp other.now item.now) && same_group other.now item.now)) }
{
    other.due <= t && (comes_before(other, item) && same_group(other, item))
}

/// A due item of the same group comes before this one.
#[tactic(auto, unfolding(crate::specs::Heads::has_lesser))]
pub(crate) fn has_lesser(items: &BTreeMap<u64, BoxedItem>, item: &Item, t: u64) -> bool
    ensures { result ≡ has_lesser t (values items.now) item.now }
{
    items.values().any(|other| is_lesser(other.item(), item, t))
}

/// An item's score, counted from the least that there is.
#[tactic(auto, unfolding(crate::specs::Store::lifted))]
pub(crate) fn lifted(item: &Item) -> u64
    ensures value { result ≡ lifted item.now.score }
    ensures sound { IsScore item.now.score }
{
    item.score.abs_diff(i64::MIN)
}

/// The throttle's cell of an item.
pub(crate) fn start_of(item: &Item) -> Option<&Cell>
    ensures { option_copied result ≡ item.now.start }
{
    match &item.start {
        Some(start) => Some(start.get()),
        None => None,
    }
}

/// The cells with limits and the start of the items of a group.
pub(crate) type Group = (CellLimits, Option<Shared<Cell>>);

fn copy_of_start(start: &Option<Shared<Cell>>) -> Result<Option<Shared<Cell>>, Memory>
    ensures { IfOk result (λ copy. copy ≡ start.now) }
{
    match start {
        Some(cell) => Ok(Some(cell.clone()?)),
        None => Ok(None),
    }
}

pub(crate) fn copy_of(group: &Group) -> Result<Group, Memory>
    ensures { IfOk result (λ copy. copy ≡ group.now) }
{
    let cells = group.0.clone()?;
    let start = copy_of_start(&group.1)?;
    Ok((cells, start))
}

pub(crate) fn group_of(item: &Item) -> Result<Group, Memory>
    ensures { IfOk result (λ group. group ≡ group_of item.now) }
{
    let cells = item.cells.clone()?;
    let start = copy_of_start(&item.start)?;
    Ok((cells, start))
}
