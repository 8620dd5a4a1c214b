// The public queue without parking.
ghost use Rattle.std.specs.Prelude.{◌≡◌, ◌+◌, ◌≤◌, [], find, None, OnOk, OnErr};
ghost use Rattle.kinds.specs.Cells.{IsStart, last_moment};
ghost use Rattle.kinds.specs.Queue.{has_number, without_number, without_run, insert_item};
ghost use Rattle.kinds.specs.Queue.{least_admissible, groups_of, next_item};

use crate::ahead::next_of;
use crate::listed::Listed;
use crate::{Entries, Gate};
use concurrency_keys::ConcurrencyKeys;
use kinds::{Item, Steps};
use lists::Memory;
use std::alloc::Global;
use std::marker::Model;
use std::sync::ledger::Ledger;
use throttle::Starts;

/// Items that wait to be issued. Contracts see the list of items in order of number. Moments are
/// milliseconds since 1970.
#[derive(Drop)]
pub struct ReadyQueue {
    listed: Listed,
}

impl Model for ReadyQueue {
    ghost use Rattle.std.specs.Prelude.{List};
    ghost use Rattle.kinds.specs.declared.store.Item.{Item};
    ghost use Rattle.ready_queue.specs.Held.{ParksNothing};

    ghost Value = { List Item };

    ghost view = { λ q. q.listed.items };

    ghost invariant = { λ q. ParksNothing q.listed.ready };
}

impl ReadyQueue {
    /// A value without items, which takes no memory.
    pub fn empty(alloc: Global) -> Self
        ensures { result ≡ [] }
    {
        ReadyQueue {
            listed: Listed::empty(alloc),
        }
    }

    /// Adds an item whose number none has.
    pub fn add(&mut self, item: Item) -> Result<(), Memory>
        requires fresh { find (has_number item.number) self.old ≡ None }
        requires start { IsStart item.start }
        ensures ok { OnOk result (self.new ≡ insert_item item self.old) }
        ensures err { OnErr result (self.new ≡ self.old) }
    {
        self.listed.add(item)?;
        Ok(())
    }

    /// Lets a moment come: from now on `least_admissible` looks at each group of items that are due
    /// once, and at no other item, while it is asked for this moment. Without this it looks at all
    /// items, and answers the same.
    pub fn pass(&mut self, t: u64) -> Result<(), Memory>
        ensures { self.new ≡ self.old }
    {
        self.listed.pass(t)?;
        Ok(())
    }

    /// The first in order of score and number of the items that are due and for which the gate is open.
    /// Items of equal cells with limits and equal start are a group, for which the gate is asked at most
    /// once. Takes no memory.
    pub fn least_admissible<G: Gate, L: Ledger>(
        &self,
        t: u64,
        gate: &G,
        steps: &mut Steps<L>,
    ) -> Option<u64>
        requires { t ≤ last_moment }
        ensures least { result ≡ least_admissible (G.is_open gate.now t) t self.now }
        ensures asked { steps.new ≤ steps.old + groups_of self.now }
    {
        self.listed.least_admissible(t, gate, steps)
    }

    /// Takes an item out.
    pub fn take(&mut self, number: u64) -> Option<Item>
        ensures value { result ≡ find (has_number number) self.old }
        ensures left { self.new ≡ without_number number self.old }
    {
        self.listed.take(number)
    }

    /// Drops the items of a run. Looks at these alone.
    pub fn remove_run(&mut self, run: u64)
        ensures { self.new ≡ without_run run self.old }
    {
        self.listed.remove_run(run);
    }

    /// The least of the dues past a moment, and of the releases of starts that due items wait for whose
    /// cells are free. Takes no memory. After a `pass` of this moment it looks at the first due to come
    /// and once at each group of items that are due; else at all items.
    pub fn next(&self, t: u64, cells: &ConcurrencyKeys, throttle: &Starts) -> Option<u64>
        requires { t ≤ last_moment }
        ensures { result ≡ next_item cells.now throttle.now t self.now }
    {
        next_of(&self.listed, t, cells, throttle)
    }

    /// The items by reference, in order of number.
    pub fn entries(&self) -> Entries<'_>
        ensures { result ≡ self.now }
    {
        self.listed.entries()
    }
}
