// The queue that leaves groups aside that can't be open.
ghost use Rattle.std.specs.Prelude.{◌≡◌, ◌+◌, ◌≤◌, ◌<◌, ℕ, List, [], length, find, Some, None};
ghost use Rattle.std.specs.Prelude.{OnOk, OnErr, IfOk, IfSome};
ghost use Rattle.std.specs.Bool.{OnTrue, OnFalse};
ghost use Rattle.std.specs.Option.{option_copied, IfNone};
ghost use Rattle.std.specs.Ordering.{nat_cmp};
ghost use Rattle.kinds.specs.Cells.{IsStart, last_moment, cell_cmp, is_full};
ghost use Rattle.kinds.specs.Queue.{has_number, without_number, without_run, insert_item};
ghost use Rattle.kinds.specs.Queue.{least_admissible, groups_of, admits, next_item};
ghost use Rattle.ready_queue.specs.Held.{Group};
ghost use Rattle.ready_queue.specs.Parking.{IsShut, IsHeldTill, ParksFewer, AreLookedAt, AreToCome};
ghost use Rattle.ready_queue.specs.Parking.{at_moment, IsFirst, Loses};

use crate::ahead::{least_parked, next_of};
use crate::item::{Group, copy_of, group_of};
use crate::listed::Listed;
use crate::lot::{Lot, put_at, put_till, unpark_all};
use crate::{Admission, Entries};
use concurrency_keys::ConcurrencyKeys;
use kinds::{Cell, CellLimit, CellLimits, Item, Shared, Steps};
use lists::Memory;
use std::alloc::Global;
use std::collections::BTreeMap;
use std::marker::Model;
use std::sync::ledger::Ledger;
use throttle::Starts;

/// Items that wait to be issued, as in a [`ReadyQueue`](crate::ReadyQueue). A group that can't be open
/// is parked: at a cell that is full, or till the moment before which its throttle lets no run start.
/// It isn't looked at till the cell is named to `freed` or the moment has come. Contracts see the
/// items, and which groups are parked where. Moments are milliseconds since 1970.
#[derive(Drop)]
pub struct ParkingQueue {
    listed: Listed,
    full: BTreeMap<Cell, Lot>,
    later: BTreeMap<u64, Lot>,
    alloc: Global,
}

impl Model for ParkingQueue {
    ghost use Rattle.ready_queue.specs.Parking.{Parking, HavePlaces};

    ghost Value = { Parking };

    ghost view = { λ q. record {
      items = q.listed.items;
      full = q.full.entries;
      later = q.later.entries;
    } };

    ghost invariant = { λ q. HavePlaces q.listed.ready q.full.entries q.later.entries };
}

/// The first of the limits whose cell is full.
fn full_limit<'a>(limits: &'a [CellLimit], cells: &ConcurrencyKeys) -> Option<&'a CellLimit>
    ensures { option_copied result ≡ find (is_full cells.now) limits.now }
{
    limits.iter().find(|limit| cells.full(limit))
}

/// The moment at which a start is let, where that is to come.
fn held_till(start: &Option<Shared<Cell>>, t: u64, throttle: &Starts) -> Option<u64>
    requires { IsStart start.now }
    ensures coming { IfSome result (λ m. t < m) }
    ensures held { (cells : List CellLimit)
        → IfSome result (λ m. IsHeldTill throttle.now m (cells, start.now)) }
{
    let Some(cell) = start else {
        return None;
    };
    let moment = throttle.release_moment(cell.get());
    if moment <= t {
        return None;
    }
    Some(moment)
}

impl ParkingQueue {
    /// A value without items, which takes no memory.
    pub fn empty(alloc: Global) -> Self
        ensures { result ≡ record { items = []; full = []; later = [] } }
    {
        ParkingQueue {
            listed: Listed::empty(alloc),
            full: BTreeMap::new(alloc),
            later: BTreeMap::new(alloc),
            alloc,
        }
    }

    /// Adds an item whose number none has.
    pub fn add(&mut self, item: Item) -> Result<(), Memory>
        requires fresh { find (has_number item.number) self.old.items ≡ None }
        requires start { IsStart item.start }
        ensures ok { OnOk result (self.new.items ≡ insert_item item self.old.items) }
        ensures err { OnErr result (self.new.items ≡ self.old.items) }
        ensures full { self.new.full ≡ self.old.full }
        ensures later { self.new.later ≡ self.old.later }
    {
        self.listed.add(item)?;
        Ok(())
    }

    /// The cells and the start, in the memory of an item that has equal ones and is due, where there is one.
    pub fn intern(
        &self,
        cells: CellLimits,
        start: Option<Shared<Cell>>,
    ) -> (CellLimits, Option<Shared<Cell>>)
        ensures { result ≡ (cells, start) }
    {
        self.listed.intern((cells, start))
    }

    /// Takes an item out.
    pub fn take(&mut self, number: u64) -> Option<Item>
        ensures value { result ≡ find (has_number number) self.old.items }
        ensures left { self.new.items ≡ without_number number self.old.items }
        ensures full { self.new.full ≡ self.old.full }
        ensures later { self.new.later ≡ self.old.later }
    {
        self.listed.take(number)
    }

    /// Drops the items of a run. Looks at these alone.
    pub fn remove_run(&mut self, run: u64)
        ensures left { self.new.items ≡ without_run run self.old.items }
        ensures full { self.new.full ≡ self.old.full }
        ensures later { self.new.later ≡ self.old.later }
    {
        self.listed.remove_run(run);
    }

    // Looks at the groups again that are parked at a cell.
    fn wake_at(&mut self, cell: &Cell) -> Result<(), Memory>
        ensures items { self.new.items ≡ self.old.items }
        ensures later { self.new.later ≡ self.old.later }
        ensures ok { OnOk result (Loses cell_cmp cell.now self.old.full self.new.full) }
        ensures err { OnErr result (self.new.full ≡ self.old.full) }
    {
        let Some(groups) = self.full.get(cell) else {
            return Ok(());
        };
        unpark_all(&mut self.listed, groups.set())?;
        self.full.remove(cell);
        Ok(())
    }

    // Looks at the groups again that are parked at the cells of limits.
    fn wake_all(&mut self, limits: &[CellLimit]) -> Result<(), Memory>
        ensures items { self.new.items ≡ self.old.items }
        ensures fewer { ParksFewer self.old self.new }
        ensures ok { OnOk result (AreLookedAt limits.now self.new) }
    {
        for limit in limits {
            self.wake_at(&limit.cell)?;
        }
        Ok(())
    }

    /// Cells are named that have fewer issues now: the groups that are parked at these are looked at
    /// again.
    pub fn freed(&mut self, cells: &CellLimits) -> Result<(), Memory>
        ensures items { self.new.items ≡ self.old.items }
        ensures fewer { ParksFewer self.old self.new }
        ensures ok { OnOk result (AreLookedAt cells.now self.new) }
    {
        self.wake_all(cells.as_slice())?;
        Ok(())
    }

    /// The first of the moments till which groups are parked.
    fn first_moment(&self) -> Option<u64>
        ensures least { IfSome result (λ f. IsFirst f self.now.later) }
        ensures none { IfNone result
            ((m : ℕ) (gs : List Group) → at_moment m self.now.later ≡ Some gs → ⊥) }
    {
        let Some((moment, _)) = self.later.first_key_value() else {
            return None;
        };
        Some(*moment)
    }

    // Looks at the groups again that are parked till a moment.
    fn wake_till(&mut self, moment: u64) -> Result<(), Memory>
        requires { at_moment moment self.old.later ≡ None → ⊥ }
        ensures items { self.new.items ≡ self.old.items }
        ensures full { self.new.full ≡ self.old.full }
        ensures fewer { ParksFewer self.old self.new }
        ensures ok { OnOk result (length self.new.later < length self.old.later) }
    {
        let Some(groups) = self.later.get(&moment) else {
            return Ok(());
        };
        unpark_all(&mut self.listed, groups.set())?;
        self.later.remove(&moment);
        Ok(())
    }

    // Looks at the groups again that are parked till the first of the moments, where this has come.
    fn wake_first(&mut self, t: u64) -> Result<bool, Memory>
        ensures items { self.new.items ≡ self.old.items }
        ensures full { self.new.full ≡ self.old.full }
        ensures fewer { ParksFewer self.old self.new }
        ensures woken { IfOk result (λ b. OnTrue b (length self.new.later < length self.old.later)) }
        ensures done { IfOk result (λ b. OnFalse b (AreToCome t self.new)) }
    {
        let Some(moment) = self.first_moment() else {
            return Ok(false);
        };
        if moment > t {
            return Ok(false);
        }
        self.wake_till(moment)?;
        Ok(true)
    }

    // What is due by the moment goes into its group.
    fn ripen(&mut self, t: u64) -> Result<(), Memory>
        ensures items { self.new.items ≡ self.old.items }
        ensures full { self.new.full ≡ self.old.full }
        ensures later { self.new.later ≡ self.old.later }
    {
        self.listed.pass(t)?;
        Ok(())
    }

    /// Lets a moment come: the groups that are parked till then are looked at again, and `settle_next`
    /// looks at no item that isn't due, while it is asked for this moment.
    pub fn pass(&mut self, t: u64) -> Result<(), Memory>
        ensures items { self.new.items ≡ self.old.items }
        ensures full { self.new.full ≡ self.old.full }
        ensures fewer { ParksFewer self.old self.new }
        ensures ok { OnOk result (AreToCome t self.new) }
    {
        self.ripen(t)?;
        while self.wake_first(t)? {}
        Ok(())
    }

    // Parks the first group that isn't parked, where one of its cells is full, and says whether it did.
    fn park_at(
        &mut self,
        t: u64,
        cells: &ConcurrencyKeys,
        throttle: &Starts,
    ) -> Result<bool, Memory>
        requires { IsShut self.old cells.now throttle.now t }
        ensures items { self.new.items ≡ self.old.items }
        ensures shut { IsShut self.new cells.now throttle.now t }
    {
        let Some(item) = self.listed.front() else {
            return Ok(false);
        };
        let Some(limit) = full_limit(item.cells.as_slice(), cells) else {
            return Ok(false);
        };
        let group = group_of(item)?;
        let copy = copy_of(&group)?;
        put_at(&mut self.full, self.alloc, &limit.cell, copy)?;
        self.listed.park(&group);
        Ok(true)
    }

    // Parks the first group that isn't parked, where its start is let later, and says whether it did.
    fn park_till(
        &mut self,
        t: u64,
        cells: &ConcurrencyKeys,
        throttle: &Starts,
    ) -> Result<bool, Memory>
        requires { IsShut self.old cells.now throttle.now t }
        ensures items { self.new.items ≡ self.old.items }
        ensures shut { IsShut self.new cells.now throttle.now t }
    {
        let Some(item) = self.listed.front() else {
            return Ok(false);
        };
        let Some(moment) = held_till(&item.start, t, throttle) else {
            return Ok(false);
        };
        let group = group_of(item)?;
        let copy = copy_of(&group)?;
        put_till(&mut self.later, self.alloc, moment, copy)?;
        self.listed.park(&group);
        Ok(true)
    }

    // Parks the first group that isn't parked, where it can't be open. Without memory for this it stays.
    fn park_first(&mut self, t: u64, cells: &ConcurrencyKeys, throttle: &Starts) -> bool
        requires { IsShut self.old cells.now throttle.now t }
        ensures items { self.new.items ≡ self.old.items }
        ensures shut { IsShut self.new cells.now throttle.now t }
    {
        match self.park_at(t, cells, throttle) {
            Ok(true) => true,
            Ok(false) => match self.park_till(t, cells, throttle) {
                Ok(parked) => parked,
                Err(_) => false,
            },
            Err(_) => false,
        }
    }

    // Parks the groups that can't be open, up to the first that can.
    fn park_closed(&mut self, t: u64, cells: &ConcurrencyKeys, throttle: &Starts)
        requires { IsShut self.old cells.now throttle.now t }
        ensures items { self.new.items ≡ self.old.items }
        ensures shut { IsShut self.new cells.now throttle.now t }
    {
        for _ in 0..self.listed.open_groups() {
            if !self.park_first(t, cells, throttle) {
                return;
            }
        }
    }

    fn least<L: Ledger>(
        &self,
        t: u64,
        cells: &ConcurrencyKeys,
        throttle: &Starts,
        steps: &mut Steps<L>,
    ) -> Option<u64>
        requires moment { t ≤ last_moment }
        requires shut { IsShut self.now cells.now throttle.now t }
        ensures least { result ≡ least_admissible (admits cells.now throttle.now t) t self.now.items }
        ensures asked { steps.new ≤ steps.old + groups_of self.now.items }
    {
        let gate = Admission { cells, throttle };
        self.listed.least_admissible(t, &gate, steps)
    }

    /// The first in order of score and number of the items that are due, whose cells are free, and that
    /// the throttle lets start. Parks each group before it that can't be open; without memory for this,
    /// one isn't parked.
    pub fn settle_next<L: Ledger>(
        &mut self,
        t: u64,
        cells: &ConcurrencyKeys,
        throttle: &Starts,
        steps: &mut Steps<L>,
    ) -> Option<u64>
        requires moment { t ≤ last_moment }
        requires shut { IsShut self.old cells.now throttle.now t }
        ensures least { result ≡ least_admissible (admits cells.now throttle.now t) t self.old.items }
        ensures items { self.new.items ≡ self.old.items }
        ensures shut { IsShut self.new cells.now throttle.now t }
        ensures asked { steps.new ≤ steps.old + groups_of self.old.items }
    {
        self.park_closed(t, cells, throttle);
        self.least(t, cells, throttle, steps)
    }

    /// The least of the dues past a moment, and of the releases of starts that due items wait for whose
    /// cells are free. Takes no memory. After `pass` and a `settle_next` of this moment that found
    /// nothing, it looks at the first due to come, and at the groups that are parked till moments
    /// before its answer; after `pass` alone at each group that has items that are due; else at all
    /// items.
    pub fn next(&self, t: u64, cells: &ConcurrencyKeys, throttle: &Starts) -> Option<u64>
        requires moment { t ≤ last_moment }
        requires shut { IsShut self.now cells.now throttle.now t }
        ensures { result ≡ next_item cells.now throttle.now t self.now.items }
    {
        match self.listed.ahead(t) {
            Some(ahead) => {
                least_parked(&self.listed, &self.later, t, cells, throttle, ahead.due)
            }
            None => next_of(&self.listed, t, cells, throttle),
        }
    }

    /// The item of a number.
    pub fn get(&self, number: u64) -> Option<&Item>
        ensures { option_copied result ≡ find (has_number number) self.now.items }
    {
        self.listed.get(number)
    }

    /// The items by reference, in order of number.
    pub fn entries(&self) -> Entries<'_>
        ensures { result ≡ self.now.items }
    {
        self.listed.entries()
    }
}
