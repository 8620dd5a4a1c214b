// Queued items: those that are due in groups, and those that are to come.
ghost use Rattle.std.specs.Prelude.{◌≡◌, ◌⊎◌, ◌+◌, ◌≤◌, ◌<◌, IfSome, [], length, find, None};
ghost use Rattle.std.specs.Prelude.{OnOk, OnErr, IfOk, true, false};
ghost use Rattle.std.specs.Bool.{OnTrue, OnFalse};
ghost use Rattle.std.specs.Option.{option_copied, IfNone};
ghost use Rattle.kinds.specs.Cells.{IsStart, last_moment};
ghost use Rattle.kinds.specs.Queue.{has_number, without_number, insert_item, least_admissible};
ghost use Rattle.kinds.specs.Queue.{groups_of, group_of, next_item};
ghost use Rattle.ready_queue.specs.Ahead.{IsRipe, IsFirstDue, IsItemOf};
ghost use Rattle.ready_queue.specs.Front.{IsFront, AllParked};
ghost use Rattle.ready_queue.specs.Heads.{second};
ghost use Rattle.ready_queue.specs.Held.{Group, holds, HoldsNothing, Goes, IsParked};
ghost use Rattle.ready_queue.specs.Held.{AreFewer, AreOneMore, AreClosed};
ghost use Rattle.ready_queue.specs.Pool.{NoneDue};
ghost use Rattle.ready_queue.specs.Store.{IsScore, lifted};

use crate::item::{Group, group_of, lifted};
use crate::ready::Ready;
use crate::store::Store;
use crate::{Entries, Gate};
use concurrency_keys::ConcurrencyKeys;
use kinds::{Item, Steps};
use lists::Memory;
use std::alloc::Global;
use std::collections::{BTreeMap, BTreeSet};
use std::marker::Model;
use std::sync::ledger::Ledger;
use throttle::Starts;

/// Items, those that are due in their groups, the others in order of their dues. The groups have what is
/// due by `horizon`, and nothing else is due by `clear`.
#[derive(Drop)]
pub(crate) struct Pool {
    store: Store,
    ready: Ready,
    waiting: BTreeSet<(u64, u64)>,
    horizon: u64,
    clear: u64,
}

impl Model for Pool {
    ghost use Rattle.ready_queue.specs.Held.{holds};
    ghost use Rattle.ready_queue.specs.Pool.{Pool, IsPool};

    ghost Value = { Pool };

    ghost view = { λ p. record {
      items = p.store;
      ready = p.ready;
      waiting = p.waiting.keys;
      horizon = p.horizon;
      clear = p.clear;
    } };

    ghost invariant = { λ p. IsPool p.store (holds p.ready.held) p.waiting.keys p.horizon p.clear };
}

/// The next moment is the first due to come, or one of a group.
#[derive(Clone, Copy)]
pub(crate) struct Ahead {
    /// The first due to come, in milliseconds since 1970.
    pub(crate) due: Option<u64>,
}

/// Takes an item out of its group, and gives it back.
fn leave(ready: &mut Ready, item: Item) -> Item
    ensures item { result ≡ item }
    ensures goes { Goes (group_of item) (lifted item.score) item.number
        (holds ready.old.held) (holds ready.new.held) }
    ensures parked { AreFewer ready.old ready.new }
{
    let counted = lifted(&item);
    let Item {
        number,
        run,
        target,
        attempt,
        due,
        score,
        cells,
        start,
    } = item;
    let group = (cells, start);
    ready.remove(&group, counted, number);
    let (cells, start) = group;
    Item {
        number,
        run,
        target,
        attempt,
        due,
        score,
        cells,
        start,
    }
}

fn second(best: Option<(u64, u64)>) -> Option<u64>
    ensures { result ≡ second best }
{
    match best {
        Some((_, number)) => Some(number),
        None => None,
    }
}

impl Pool {
    pub(crate) fn empty(alloc: Global) -> Self
        ensures items { result.items ≡ [] }
        ensures parked { (k : Group) → IsParked result.ready k → ⊥ }
    {
        Pool {
            store: Store::empty(alloc),
            ready: Ready::empty(alloc),
            waiting: BTreeSet::new(alloc),
            horizon: 0,
            clear: 0,
        }
    }

    // Adds an item that is due by the horizon.
    fn add_due(&mut self, item: Item) -> Result<(), Memory>
        requires fresh { find (has_number item.number) self.old.items ≡ None }
        requires start { IsStart item.start }
        requires due { item.due ≤ self.old.horizon }
        ensures ok { OnOk result (self.new.items ≡ insert_item item self.old.items) }
        ensures err { OnErr result (self.new.items ≡ self.old.items) }
        ensures parked { AreFewer self.old.ready self.new.ready }
    {
        let group = group_of(&item)?;
        let (score, number) = (lifted(&item), item.number);
        self.ready.add(&group, score, number)?;
        match self.store.put(item) {
            Ok(()) => Ok(()),
            Err(_) => {
                self.ready.remove(&group, score, number);
                Err(Memory)
            }
        }
    }

    // Adds an item that is due later.
    fn add_late(&mut self, item: Item) -> Result<(), Memory>
        requires fresh { find (has_number item.number) self.old.items ≡ None }
        requires start { IsStart item.start }
        requires score { IsScore item.score }
        requires due { self.old.horizon < item.due }
        ensures ok { OnOk result (self.new.items ≡ insert_item item self.old.items) }
        ensures err { OnErr result (self.new.items ≡ self.old.items) }
        ensures parked { AreFewer self.old.ready self.new.ready }
    {
        let place = (item.due, item.number);
        self.waiting.insert(place)?;
        match self.store.put(item) {
            Ok(()) => Ok(()),
            Err(_) => {
                self.waiting.remove(&place);
                Err(Memory)
            }
        }
    }

    /// Adds an item whose number none has.
    pub(crate) fn add(&mut self, item: Item) -> Result<(), Memory>
        requires fresh { find (has_number item.number) self.old.items ≡ None }
        requires start { IsStart item.start }
        ensures ok { OnOk result (self.new.items ≡ insert_item item self.old.items) }
        ensures err { OnErr result (self.new.items ≡ self.old.items) }
        ensures parked { AreFewer self.old.ready self.new.ready }
    {
        let _score = lifted(&item);
        if item.due <= self.horizon {
            self.add_due(item)
        } else {
            self.add_late(item)
        }
    }

    /// The first in order of the items that are due and for which the gate is open. Looks once at each
    /// group that isn't parked where the groups have what is due at the moment, and else at all items.
    pub(crate) fn least_admissible<G: Gate, L: Ledger>(
        &self,
        t: u64,
        gate: &G,
        steps: &mut Steps<L>,
    ) -> Option<u64>
        requires moment { t ≤ last_moment }
        requires closed { AreClosed (G.is_open gate.now t) self.now.ready }
        ensures least { result ≡ least_admissible (G.is_open gate.now t) t self.now.items }
        ensures asked { steps.new ≤ steps.old + groups_of self.now.items }
    {
        if self.horizon <= t && t <= self.clear {
            return second(self.ready.least_open(self.store.map(), t, gate, steps));
        }
        self.store.least_admissible(t, gate, steps)
    }

    /// Takes an item out.
    pub(crate) fn take(&mut self, number: u64) -> Option<Item>
        ensures value { result ≡ find (has_number number) self.old.items }
        ensures left { self.new.items ≡ without_number number self.old.items }
        ensures parked { AreFewer self.old.ready self.new.ready }
    {
        let item = self.store.take(number)?;
        self.waiting.remove(&(item.due, number));
        Some(leave(&mut self.ready, item))
    }

    // Moves an item over that is due by the horizon, and says whether there was one.
    fn move_one(&mut self) -> Result<bool, Memory>
        ensures items { self.new.items ≡ self.old.items }
        ensures horizon { self.new.horizon ≡ self.old.horizon }
        ensures clear { self.new.clear ≡ self.old.clear }
        ensures moved { IfOk result (λ b. OnTrue b (length self.new.waiting < length self.old.waiting)) }
        ensures done { IfOk result (λ b. OnFalse b (NoneDue self.new.waiting self.new.horizon)) }
        ensures parked { AreFewer self.old.ready self.new.ready }
    {
        let Some(first) = self.waiting.first() else {
            return Ok(false);
        };
        let (due, number) = *first;
        if self.horizon < due {
            return Ok(false);
        }
        let Some(item) = self.store.get(number) else {
            return Err(Memory);
        };
        let group = group_of(item)?;
        self.ready.add(&group, lifted(item), number)?;
        self.waiting.remove(&(due, number));
        Ok(true)
    }

    fn set_horizon(&mut self, t: u64)
        requires { self.old.horizon ≤ t }
        ensures { self.new ≡ record self.old { horizon = t } }
    {
        self.horizon = t;
    }

    fn set_clear(&mut self, t: u64)
        requires none { NoneDue self.old.waiting t }
        requires near { t ≤ self.old.horizon }
        ensures { self.new ≡ record self.old { clear = t } }
    {
        self.clear = t;
    }

    /// What is due by the moment goes into its group.
    fn ripen(&mut self, t: u64) -> Result<(), Memory>
        requires { self.old.horizon ≤ t }
        ensures items { self.new.items ≡ self.old.items }
        ensures parked { AreFewer self.old.ready self.new.ready }
    {
        self.set_horizon(t);
        while self.move_one()? {}
        self.set_clear(t);
        Ok(())
    }

    /// Lets a moment come. Does nothing where it is past.
    pub(crate) fn pass(&mut self, t: u64) -> Result<(), Memory>
        ensures items { self.new.items ≡ self.old.items }
        ensures parked { AreFewer self.old.ready self.new.ready }
    {
        if t < self.horizon {
            return Ok(());
        }
        self.ripen(t)
    }

    /// Parks the group of an item.
    pub(crate) fn park(&mut self, group: &Group)
        ensures items { self.new.items ≡ self.old.items }
        ensures parked { AreOneMore group.now self.old.ready self.new.ready }
    {
        self.ready.park(group);
    }

    /// Looks at a group again.
    pub(crate) fn unpark(&mut self, group: &Group) -> Result<(), Memory>
        ensures items { self.new.items ≡ self.old.items }
        ensures parked { AreFewer self.old.ready self.new.ready }
        ensures ok { OnOk result (IsParked self.new.ready group.now → ⊥) }
    {
        self.ready.unpark(group)?;
        Ok(())
    }

    /// What is ahead, where the groups have what is due at the moment and nothing else.
    pub(crate) fn ripe(&self, t: u64) -> Option<Ahead>
        ensures { IfSome result (λ a. IsRipe self.now.items self.now.ready t a.due) }
    {
        if self.horizon != t {
            return None;
        }
        if self.clear != t {
            return None;
        }
        let _items = self.store.map();
        Some(Ahead {
            due: self.first_due(),
        })
    }

    /// The same, where all groups are parked too.
    pub(crate) fn ahead(&self, t: u64) -> Option<Ahead>
        ensures ripe { IfSome result (λ a. IsRipe self.now.items self.now.ready t a.due) }
        ensures parked { IfSome result (λ a. AllParked self.now.ready) }
    {
        if self.ready.open_groups() > 0 {
            return None;
        }
        self.ripe(t)
    }

    // The first of the dues of the items that aren't in groups.
    fn first_due(&self) -> Option<u64>
        ensures { IsFirstDue self.now.waiting result }
    {
        let Some(first) = self.waiting.first() else {
            return None;
        };
        Some(first.0)
    }

    /// The first item of a group.
    pub(crate) fn first_of(&self, group: &Group) -> Option<&Item>
        ensures some { IfSome result (λ i. IsItemOf self.now.items self.now.ready group.now i.now) }
        ensures none { IfNone result (HoldsNothing self.now.ready group.now) }
    {
        let Some(number) = self.ready.head(group) else {
            return None;
        };
        let item = self.store.item(number)?;
        Some(item)
    }

    /// The group, in the memory of the equal one that has items, where there is one.
    pub(crate) fn intern(&self, group: Group) -> Group
        ensures { result ≡ group }
    {
        self.ready.intern(group)
    }

    /// The groups, each with its number.
    pub(crate) fn names(&self) -> &BTreeMap<Group, u64>
        ensures { result.now.entries ≡ self.now.ready.held.names }
    {
        self.ready.names()
    }

    /// The first item of the first group that isn't parked.
    pub(crate) fn front(&self) -> Option<&Item>
        ensures some { IfSome result (λ i. IsFront self.now.items self.now.ready i.now) }
        ensures start { IfSome result (λ i. IsStart i.now.start) }
        ensures none { IfNone result (AllParked self.now.ready) }
    {
        let Some(number) = self.ready.front() else {
            return None;
        };
        let item = self.store.item(number)?;
        Some(item)
    }

    /// How many groups aren't parked.
    pub(crate) fn open_groups(&self) -> usize
        ensures { result ≡ length self.now.ready.places }
    {
        self.ready.open_groups()
    }

    /// The least of the items' next moments. Looks at all items.
    pub(crate) fn next(&self, t: u64, cells: &ConcurrencyKeys, throttle: &Starts) -> Option<u64>
        requires { t ≤ last_moment }
        ensures { result ≡ next_item cells.now throttle.now t self.now.items }
    {
        self.store.next(t, cells, throttle)
    }

    /// The item of a number.
    pub(crate) fn get(&self, number: u64) -> Option<&Item>
        ensures { option_copied result ≡ find (has_number number) self.now.items }
    {
        self.store.get(number)
    }

    /// The items by reference, in order of number.
    pub(crate) fn entries(&self) -> Entries<'_>
        ensures { result ≡ self.now.items }
    {
        self.store.entries()
    }
}
