// Queued items under their numbers.
ghost use Rattle.std.specs.Prelude.{◌≡◌, ◌+◌, ◌≤◌, [], find, None, OnOk, OnErr, IfSome};
ghost use Rattle.std.specs.BTreeMap.{values};
ghost use Rattle.std.specs.Option.{option_copied};
ghost use Rattle.kinds.specs.Cells.{IsStart, last_moment};
ghost use Rattle.kinds.specs.Queue.{has_number, without_number, insert_item, least_admissible};
ghost use Rattle.kinds.specs.Queue.{groups_of, next_item};
ghost use Rattle.ready_queue.specs.Store.{IsScore, IsStore};

use crate::boxed::{BoxedItem, find_at, put_at, take_at};
use crate::moment::{moment_of, sooner};
use crate::scan::{least_open, second};
use crate::{Entries, Gate};
use concurrency_keys::ConcurrencyKeys;
use kinds::{Item, Steps};
use lists::Memory;
use std::alloc::Global;
use std::collections::BTreeMap;
use std::marker::Model;
use std::sync::ledger::Ledger;
use throttle::Starts;

/// Items under their numbers, each looked at where something is asked of all.
#[derive(Drop)]
pub(crate) struct Store {
    alloc: Global,
    items: BTreeMap<u64, BoxedItem>,
}

impl Model for Store {
    ghost use Rattle.std.specs.Prelude.{List};
    ghost use Rattle.std.specs.BTreeMap.{values};
    ghost use Rattle.kinds.specs.declared.store.Item.{Item};
    ghost use Rattle.ready_queue.specs.Store.{IsStore};

    ghost Value = { List Item };

    ghost view = { λ s. values s.items };

    ghost invariant = { λ s. IsStore s.items.entries };
}

impl Store {
    pub(crate) fn empty(alloc: Global) -> Self
        ensures { result ≡ [] }
    {
        Store {
            alloc,
            items: BTreeMap::new(alloc),
        }
    }

    /// Adds an item whose number none has.
    pub(crate) fn put(&mut self, item: Item) -> Result<(), Memory>
        requires fresh { find (has_number item.number) self.old ≡ None }
        requires start { IsStart item.start }
        requires score { IsScore item.score }
        ensures ok { OnOk result (self.new ≡ insert_item item self.old) }
        ensures err { OnErr result (self.new ≡ self.old) }
    {
        let number = item.number;
        put_at(&mut self.items, self.alloc, number, item)?;
        Ok(())
    }

    pub(crate) fn get(&self, number: u64) -> Option<&Item>
        ensures { option_copied result ≡ find (has_number number) self.now }
    {
        find_at(&self.items, number)
    }

    /// The item of a number, where one has it.
    pub(crate) fn item(&self, number: u64) -> Option<&Item>
        ensures found { option_copied result ≡ find (has_number number) self.now }
        ensures start { IfSome result (λ i. IsStart i.now.start) }
    {
        let Some(item) = find_at(&self.items, number) else {
            return None;
        };
        Some(item)
    }

    /// The first in order of the items that are due and for which the gate is open.
    pub(crate) fn least_admissible<G: Gate, L: Ledger>(
        &self,
        t: u64,
        gate: &G,
        steps: &mut Steps<L>,
    ) -> Option<u64>
        requires { t ≤ last_moment }
        ensures least { result ≡ least_admissible (G.is_open gate.now t) t self.now }
        ensures asked { steps.new ≤ steps.old + groups_of self.now }
    {
        let _count = self.items.len();
        second(least_open(&self.items, t, gate, steps))
    }

    /// Takes an item out.
    pub(crate) fn take(&mut self, number: u64) -> Option<Item>
        ensures value { result ≡ find (has_number number) self.old }
        ensures left { self.new ≡ without_number number self.old }
    {
        take_at(&mut self.items, number)
    }

    /// The least of the items' next moments.
    pub(crate) fn next(&self, t: u64, cells: &ConcurrencyKeys, throttle: &Starts) -> Option<u64>
        requires { t ≤ last_moment }
        ensures { result ≡ next_item cells.now throttle.now t self.now }
    {
        let mut next: Option<u64> = None;
        for item in self.items.values() {
            next = sooner(next, moment_of(item.item(), t, cells, throttle));
        }
        next
    }

    pub(crate) fn map(&self) -> &BTreeMap<u64, BoxedItem>
        ensures values { values result.now ≡ self.now }
        ensures stored { IsStore result.now.entries }
    {
        &self.items
    }

    /// The items by reference, in order of number.
    pub(crate) fn entries(&self) -> Entries<'_>
        ensures { result ≡ self.now }
    {
        Entries {
            inner: self.items.values(),
        }
    }
}
