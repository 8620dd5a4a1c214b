// Queued items, found by run too.
ghost use Rattle.std.specs.Prelude.{◌≡◌, ◌⊎◌, ◌+◌, ◌≤◌, [], length, find, None, OnOk, OnErr, IfSome};
ghost use Rattle.std.specs.Option.{option_copied, IfNone};
ghost use Rattle.kinds.specs.Cells.{IsStart, last_moment};
ghost use Rattle.kinds.specs.Queue.{has_number, has_run, number_of, without_number, without_run};
ghost use Rattle.kinds.specs.Queue.{insert_item, least_admissible, groups_of, next_item};
ghost use Rattle.ordered.specs.Indexes.{IsTakenOf};
ghost use Rattle.ready_queue.specs.Ahead.{IsRipe, IsItemOf};
ghost use Rattle.ready_queue.specs.Front.{IsFront, AllParked};
ghost use Rattle.ready_queue.specs.Held.{Group, HoldsNothing, IsParked, AreFewer, AreOneMore, AreClosed};
ghost use Rattle.ready_queue.specs.Runs.{run_of};

use crate::item::Group;
use crate::pool::{Ahead, Pool};
use crate::{Entries, Gate};
use concurrency_keys::ConcurrencyKeys;
use kinds::{Item, Steps};
use lists::Memory;
use std::alloc::Global;
use std::collections::{BTreeMap, BTreeSet};
use std::marker::Model;
use std::sync::ledger::Ledger;
use throttle::Starts;

/// Items that wait to be issued, found by run too. Contracts see the items, and the groups of those that
/// are ready.
#[derive(Drop)]
pub(crate) struct Listed {
    pool: Pool,
    runs: BTreeSet<(u64, u64)>,
}

impl Model for Listed {
    ghost use Rattle.std.specs.Ordering.{nat_cmp};
    ghost use Rattle.kinds.specs.Queue.{number_of};
    ghost use Rattle.ordered.specs.Indexes.{IsListed};
    ghost use Rattle.ready_queue.specs.Parking.{Listed};
    ghost use Rattle.ready_queue.specs.Runs.{run_of};

    ghost Value = { Listed };

    ghost view = { λ q. record { items = q.pool.items; ready = q.pool.ready } };

    ghost invariant = { λ q. IsListed nat_cmp run_of number_of q.pool.items q.runs.keys };
}

impl Listed {
    /// A value without items, which takes no memory.
    pub(crate) fn empty(alloc: Global) -> Self
        ensures items { result.items ≡ [] }
        ensures parked { (k : Group) → IsParked result.ready k → ⊥ }
    {
        Listed {
            pool: Pool::empty(alloc),
            runs: BTreeSet::new(alloc),
        }
    }

    /// Adds an item whose number none has.
    pub(crate) fn add(&mut self, item: Item) -> Result<(), Memory>
        requires fresh { find (has_number item.number) self.old.items ≡ None }
        requires start { IsStart item.start }
        ensures ok { OnOk result (self.new.items ≡ insert_item item self.old.items) }
        ensures err { OnErr result (self.new.items ≡ self.old.items) }
        ensures parked { AreFewer self.old.ready self.new.ready }
    {
        let key = (item.run, item.number);
        self.runs.insert(key)?;
        match self.pool.add(item) {
            Ok(()) => Ok(()),
            Err(_) => {
                self.runs.remove(&key);
                Err(Memory)
            }
        }
    }

    /// Lets a moment come.
    pub(crate) fn pass(&mut self, t: u64) -> Result<(), Memory>
        ensures items { self.new.items ≡ self.old.items }
        ensures parked { AreFewer self.old.ready self.new.ready }
    {
        self.pool.pass(t)?;
        Ok(())
    }

    /// The first in order of score and number of the items that are due and for which the gate is open.
    pub(crate) fn least_admissible<G: Gate, L: Ledger>(
        &self,
        t: u64,
        gate: &G,
        steps: &mut Steps<L>,
    ) -> Option<u64>
        requires moment { t ≤ last_moment }
        requires closed { AreClosed (G.is_open gate.now t) self.now.ready }
        ensures least { result ≡ least_admissible (G.is_open gate.now t) t self.now.items }
        ensures asked { steps.new ≤ steps.old + groups_of self.now.items }
    {
        self.pool.least_admissible(t, gate, steps)
    }

    /// Takes an item out.
    pub(crate) fn take(&mut self, number: u64) -> Option<Item>
        ensures value { result ≡ find (has_number number) self.old.items }
        ensures left { self.new.items ≡ without_number number self.old.items }
        ensures parked { AreFewer self.old.ready self.new.ready }
    {
        let item = self.pool.take(number)?;
        self.runs.remove(&(item.run, number));
        Some(item)
    }

    // Takes out an item of a run.
    fn take_of(&mut self, run: u64) -> Option<Item>
        ensures one { IfSome result
            (λ item. IsTakenOf run_of number_of run self.old.items item self.new.items) }
        ensures same { IfNone result (self.new.items ≡ self.old.items) }
        ensures none { IfNone result (find (has_run run) self.old.items ≡ None) }
        ensures parked { AreFewer self.old.ready self.new.ready }
    {
        let Some(&(found, number)) = self.runs.range((run, 0)..).next() else {
            return None;
        };
        if found != run {
            return None;
        }
        self.take(number)
    }

    /// Drops the items of a run. Looks at these alone.
    pub(crate) fn remove_run(&mut self, run: u64)
        ensures left { self.new.items ≡ without_run run self.old.items }
        ensures parked { AreFewer self.old.ready self.new.ready }
    {
        while let Some(_item) = self.take_of(run) {}
    }

    /// The least of the items' next moments. Looks at all items.
    pub(crate) fn next(&self, t: u64, cells: &ConcurrencyKeys, throttle: &Starts) -> Option<u64>
        requires { t ≤ last_moment }
        ensures { result ≡ next_item cells.now throttle.now t self.now.items }
    {
        self.pool.next(t, cells, throttle)
    }

    /// Parks a group.
    pub(crate) fn park(&mut self, group: &Group)
        ensures items { self.new.items ≡ self.old.items }
        ensures parked { AreOneMore group.now self.old.ready self.new.ready }
    {
        self.pool.park(group);
    }

    /// Looks at a group again.
    pub(crate) fn unpark(&mut self, group: &Group) -> Result<(), Memory>
        ensures items { self.new.items ≡ self.old.items }
        ensures parked { AreFewer self.old.ready self.new.ready }
        ensures ok { OnOk result (IsParked self.new.ready group.now → ⊥) }
    {
        self.pool.unpark(group)?;
        Ok(())
    }

    /// What is ahead, where the groups have what is due at the moment and nothing else.
    pub(crate) fn ripe(&self, t: u64) -> Option<Ahead>
        ensures { IfSome result (λ a. IsRipe self.now.items self.now.ready t a.due) }
    {
        self.pool.ripe(t)
    }

    /// The same, where all groups are parked too.
    pub(crate) fn ahead(&self, t: u64) -> Option<Ahead>
        ensures ripe { IfSome result (λ a. IsRipe self.now.items self.now.ready t a.due) }
        ensures parked { IfSome result (λ a. AllParked self.now.ready) }
    {
        self.pool.ahead(t)
    }

    /// The first item of a group.
    pub(crate) fn first_of(&self, group: &Group) -> Option<&Item>
        ensures some { IfSome result (λ i. IsItemOf self.now.items self.now.ready group.now i.now) }
        ensures none { IfNone result (HoldsNothing self.now.ready group.now) }
    {
        self.pool.first_of(group)
    }

    /// The group, in the memory of the equal one that has items, where there is one.
    pub(crate) fn intern(&self, group: Group) -> Group
        ensures { result ≡ group }
    {
        self.pool.intern(group)
    }

    /// The groups, each with its number.
    pub(crate) fn names(&self) -> &BTreeMap<Group, u64>
        ensures { result.now.entries ≡ self.now.ready.held.names }
    {
        self.pool.names()
    }

    /// The first item of the first group that isn't parked.
    pub(crate) fn front(&self) -> Option<&Item>
        ensures some { IfSome result (λ i. IsFront self.now.items self.now.ready i.now) }
        ensures start { IfSome result (λ i. IsStart i.now.start) }
        ensures none { IfNone result (AllParked self.now.ready) }
    {
        self.pool.front()
    }

    /// How many groups aren't parked.
    pub(crate) fn open_groups(&self) -> usize
        ensures { result ≡ length self.now.ready.places }
    {
        self.pool.open_groups()
    }

    /// The item of a number.
    pub(crate) fn get(&self, number: u64) -> Option<&Item>
        ensures { option_copied result ≡ find (has_number number) self.now.items }
    {
        self.pool.get(number)
    }

    /// The items by reference, in order of number.
    pub(crate) fn entries(&self) -> Entries<'_>
        ensures { result ≡ self.now.items }
    {
        self.pool.entries()
    }
}
