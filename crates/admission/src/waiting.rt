// Items that wait, found by run and target.
ghost use Rattle.std.specs.Prelude.{◌≡◌, ◌+◌, ◌≤◌, [], false, find, None, OnOk, OnErr, IfSome};
ghost use Rattle.std.specs.List.{list_any};
ghost use Rattle.std.specs.Option.{option_copied, IfNone};
ghost use Rattle.kinds.specs.Cells.{IsStart, last_moment};
ghost use Rattle.kinds.specs.Queue.{number_of, has_number, has_run, without_number, without_run};
ghost use Rattle.kinds.specs.Queue.{insert_item, admits, least_admissible, groups_of, next_item};
ghost use Rattle.lists.specs.Entries.{AreApart};
ghost use Rattle.ready_queue.specs.Parking.{IsShut, ParksFewer, AreLookedAt, AreToCome};
ghost use Rattle.admission.specs.Indexes.{IsIn};
ghost use Rattle.admission.specs.Items.{is_item_of, without_item};

use crate::place::{Place, Targets, first_of, first_of_run, part_of};
use concurrency_keys::ConcurrencyKeys;
use kinds::{Cell, CellLimits, Item, Shared, Steps};
use lists::Memory;
use ready_queue::{Entries, ParkingQueue};
use std::alloc::Global;
use std::collections::BTreeSet;
use std::marker::Model;
use std::sync::ledger::Ledger;
use throttle::Starts;

/// Items that wait to be issued, found by run and target too. Contracts see the items, and which groups
/// are parked.
#[derive(Drop)]
pub(crate) struct Waiting {
    queue: ParkingQueue,
    places: BTreeSet<Place>,
}

impl Model for Waiting {
    ghost use Rattle.ready_queue.specs.Parking.{Parking};
    ghost use Rattle.admission.specs.Indexes.{IsWaiting};

    ghost Value = { Parking };

    ghost view = { λ w. w.queue };

    ghost invariant = { λ w. IsWaiting w.queue.items w.places.keys };
}

impl Targets for ParkingQueue {
    ghost use Rattle.std.specs.Prelude.{find};
    ghost use Rattle.kinds.specs.Queue.{has_number};
    ghost use Rattle.admission.specs.Indexes.{is_target};

    ghost is_target = { λ q target n. is_target target (find (has_number n) q.items) };

    fn is_target(&self, target: &[u8], number: u64) -> bool {
        match self.get(number) {
            Some(item) => target == item.target.as_slice(),
            None => false,
        }
    }
}

impl Waiting {
    /// No items, which takes no memory.
    pub(crate) fn empty(alloc: Global) -> Self
        ensures { result ≡ record { items = []; full = []; later = [] } }
    {
        Waiting {
            queue: ParkingQueue::empty(alloc),
            places: BTreeSet::new(alloc),
        }
    }

    /// Adds an item whose number none has.
    pub(crate) fn add(&mut self, item: Item) -> Result<(), Memory>
        requires fresh { find (has_number item.number) self.old.items ≡ None }
        requires start { IsStart item.start }
        ensures ok { OnOk result (self.new.items ≡ insert_item item self.old.items) }
        ensures err { OnErr result (self.new.items ≡ self.old.items) }
        ensures full { self.new.full ≡ self.old.full }
        ensures later { self.new.later ≡ self.old.later }
    {
        let place = (part_of(&item), item.number);
        self.places.insert(place)?;
        match self.queue.add(item) {
            Ok(()) => Ok(()),
            Err(_) => {
                self.places.remove(&place);
                Err(Memory)
            }
        }
    }

    pub(crate) fn get(&self, number: u64) -> Option<&Item>
        ensures { option_copied result ≡ find (has_number number) self.now.items }
    {
        self.queue.get(number)
    }

    /// The cells and the start, in the memory of an item that has equal ones and is due, where there is one.
    pub(crate) fn intern(
        &self,
        cells: CellLimits,
        start: Option<Shared<Cell>>,
    ) -> (CellLimits, Option<Shared<Cell>>)
        ensures { result ≡ (cells, start) }
    {
        self.queue.intern(cells, start)
    }

    /// Takes an item out.
    pub(crate) fn take(&mut self, number: u64) -> Option<Item>
        ensures value { result ≡ find (has_number number) self.old.items }
        ensures left { self.new.items ≡ without_number number self.old.items }
        ensures full { self.new.full ≡ self.old.full }
        ensures later { self.new.later ≡ self.old.later }
        ensures start { IfSome result (λ i. IsStart i.start) }
        ensures apart { AreApart number_of self.old.items }
    {
        let item = self.queue.take(number)?;
        self.places.remove(&(part_of(&item), number));
        Some(item)
    }

    // Drops an item.
    fn drop_number(&mut self, number: u64)
        ensures left { self.new.items ≡ without_number number self.old.items }
        ensures full { self.new.full ≡ self.old.full }
        ensures later { self.new.later ≡ self.old.later }
    {
        let _ = self.take(number);
    }

    // The number of an item of a run.
    fn first_of_run(&self, run: u64) -> Option<u64>
        ensures some { IfSome result (λ n. IsIn (has_run run) n self.now.items) }
        ensures none { IfNone result (list_any (has_run run) self.now.items ≡ false) }
    {
        first_of_run(&self.places, run)
    }

    // The number of an item of a run's target.
    fn first_of(&self, run: u64, target: &[u8]) -> Option<u64>
        ensures some { IfSome result (λ n. IsIn (is_item_of run target.now) n self.now.items) }
        ensures none { IfNone result (list_any (is_item_of run target.now) self.now.items ≡ false) }
    {
        first_of(&self.places, run, target, &self.queue)
    }

    /// Whether the run has items.
    pub(crate) fn has_run(&self, run: u64) -> bool
        ensures { result ≡ list_any (has_run run) self.now.items }
    {
        let Some(_number) = self.first_of_run(run) else {
            return false;
        };
        true
    }

    /// Whether the run has items of the target.
    pub(crate) fn has(&self, run: u64, target: &[u8]) -> bool
        ensures { result ≡ list_any (is_item_of run target.now) self.now.items }
    {
        let Some(_number) = self.first_of(run, target) else {
            return false;
        };
        true
    }

    /// Drops the items of a run. Looks at these alone.
    pub(crate) fn remove_run(&mut self, run: u64)
        ensures left { self.new.items ≡ without_run run self.old.items }
        ensures full { self.new.full ≡ self.old.full }
        ensures later { self.new.later ≡ self.old.later }
    {
        while let Some(number) = self.first_of_run(run) {
            self.drop_number(number);
        }
    }

    /// Drops the items of a run's target.
    pub(crate) fn remove(&mut self, run: u64, target: &[u8])
        ensures left { self.new.items ≡ without_item run target.now self.old.items }
        ensures full { self.new.full ≡ self.old.full }
        ensures later { self.new.later ≡ self.old.later }
    {
        while let Some(number) = self.first_of(run, target) {
            self.drop_number(number);
        }
    }

    /// Cells are named that have fewer calls now: the groups that are parked at these are looked at
    /// again.
    pub(crate) fn freed(&mut self, cells: &CellLimits) -> Result<(), Memory>
        ensures items { self.new.items ≡ self.old.items }
        ensures fewer { ParksFewer self.old self.new }
        ensures ok { OnOk result (AreLookedAt cells.now self.new) }
    {
        self.queue.freed(cells)?;
        Ok(())
    }

    /// Lets a moment come.
    pub(crate) fn pass(&mut self, t: u64) -> Result<(), Memory>
        ensures items { self.new.items ≡ self.old.items }
        ensures fewer { ParksFewer self.old self.new }
        ensures ok { OnOk result (AreToCome t self.new) }
    {
        self.queue.pass(t)?;
        Ok(())
    }

    /// The first in order of score and number of the items that may be issued.
    pub(crate) fn settle_next<L: Ledger>(
        &mut self,
        t: u64,
        cells: &ConcurrencyKeys,
        throttle: &Starts,
        steps: &mut Steps<L>,
    ) -> Option<u64>
        requires moment { t ≤ last_moment }
        requires shut { IsShut self.old cells.now throttle.now t }
        ensures least { result ≡ least_admissible (admits cells.now throttle.now t) t self.old.items }
        ensures items { self.new.items ≡ self.old.items }
        ensures shut { IsShut self.new cells.now throttle.now t }
        ensures asked { steps.new ≤ steps.old + groups_of self.old.items }
    {
        self.queue.settle_next(t, cells, throttle, steps)
    }

    /// The least of the items' next moments.
    pub(crate) fn next(&self, t: u64, cells: &ConcurrencyKeys, throttle: &Starts) -> Option<u64>
        requires moment { t ≤ last_moment }
        requires shut { IsShut self.now cells.now throttle.now t }
        ensures { result ≡ next_item cells.now throttle.now t self.now.items }
    {
        self.queue.next(t, cells, throttle)
    }

    /// The items by reference, in order of number.
    pub(crate) fn entries(&self) -> Entries<'_>
        ensures { result ≡ self.now.items }
    {
        self.queue.entries()
    }
}
