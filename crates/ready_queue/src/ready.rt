// The groups of items that are due, each under a number.
ghost use Rattle.std.specs.Prelude.{◌≡◌, ◌⊎◌, ◌≤◌, ℕ, Some, None, true, false};
ghost use Rattle.std.specs.Prelude.{OnOk, OnErr, IfOk, IfSome, length};
ghost use Rattle.std.specs.Option.{IfNone};
ghost use Rattle.kinds.specs.Cells.{last_moment};
ghost use Rattle.ready_queue.specs.Front.{IsFrontHeld, AllParked};
ghost use Rattle.ready_queue.specs.Held.{Group, name_at, holds, AreSame, Comes, Goes, ComesNamed};
ghost use Rattle.ready_queue.specs.Held.{IsLeastHeld, AreOf, AsksFew};
ghost use Rattle.ready_queue.specs.Held.{IsParked, AreFewer, AreOneMore, AreClosed};
ghost use Rattle.ready_queue.specs.Keys.{Changes};
ghost use Rattle.ready_queue.specs.Opens.{HaveStarts};

use crate::Gate;
use crate::boxed::BoxedItem;
use crate::index::Index;
use crate::item::{Group, copy_of};
use kinds::Steps;
use lists::Memory;
use std::alloc::Global;
use std::collections::BTreeMap;
use std::marker::Model;
use std::sync::ledger::Ledger;

/// The groups that have items that are ready, each under a number of its own, and the keys of these
/// items.
#[derive(Drop)]
pub(crate) struct Ready {
    names: BTreeMap<Group, u64>,
    next: u64,
    index: Index,
}

impl Model for Ready {
    ghost use Rattle.ready_queue.specs.Held.{Groups, IsNamed};

    ghost Value = { Groups };

    ghost view = { λ r. record {
      held = record { names = r.names.entries; keys = r.index.keys };
      places = r.index.places;
    } };

    ghost invariant = { λ r. IsNamed r.names.entries r.index.keys r.next };
}

impl Ready {
    pub(crate) fn empty(alloc: Global) -> Self
        ensures none { (k : Group) (s n : ℕ) → holds result.held k s n ≡ false }
        ensures parked { (k : Group) → IsParked result k → ⊥ }
    {
        Ready {
            names: BTreeMap::new(alloc),
            next: 0,
            index: Index::empty(alloc),
        }
    }

    // Gives a group a number that it hasn't. A number of 2^64 counts as want of memory.
    fn give_name(&mut self, group: &Group) -> Result<u64, Memory>
        requires { name_at group.now self.old.held.names ≡ None }
        ensures ok { IfOk result (λ name. name_at group.now self.new.held.names ≡ Some name) }
        ensures same { AreSame (holds self.old.held) (holds self.new.held) }
        ensures parked { AreFewer self.old self.new }
    {
        let name = self.next;
        let Some(next) = name.checked_add(1) else {
            return Err(Memory);
        };
        let key = copy_of(group)?;
        self.names.insert(key, name)?;
        self.next = next;
        Ok(name)
    }

    /// The number of a group, which has one from now on.
    fn name(&mut self, group: &Group) -> Result<u64, Memory>
        ensures ok { IfOk result (λ name. name_at group.now self.new.held.names ≡ Some name) }
        ensures same { AreSame (holds self.old.held) (holds self.new.held) }
        ensures parked { AreFewer self.old self.new }
    {
        match self.names.get(group).copied() {
            Some(name) => Ok(name),
            None => self.give_name(group),
        }
    }

    // Adds a key of a group that has a number.
    fn put(&mut self, name: u64, score: u64, number: u64) -> Result<(), Memory>
        requires { (k : Group) × (name_at k self.old.held.names ≡ Some name) }
        ensures ok { OnOk result (ComesNamed name score number self.old.held self.new.held) }
        ensures err { OnErr result (AreSame (holds self.old.held) (holds self.new.held)) }
        ensures parked { AreFewer self.old self.new }
    {
        self.index.add(name, score, number)?;
        Ok(())
    }

    /// Adds an item's group, score and number.
    pub(crate) fn add(&mut self, group: &Group, score: u64, number: u64) -> Result<(), Memory>
        ensures ok { OnOk result
            (Comes group.now score number (holds self.old.held) (holds self.new.held)) }
        ensures err { OnErr result (AreSame (holds self.old.held) (holds self.new.held)) }
        ensures parked { AreFewer self.old self.new }
    {
        let name = self.name(group)?;
        self.put(name, score, number)?;
        Ok(())
    }

    /// Takes an item's group, score and number out.
    pub(crate) fn remove(&mut self, group: &Group, score: u64, number: u64)
        ensures goes { Goes group.now score number (holds self.old.held) (holds self.new.held) }
        ensures parked { AreFewer self.old self.new }
    {
        let Some(name) = self.names.get(group).copied() else {
            return;
        };
        if !self.index.remove(name, score, number) {
            self.names.remove(group);
        }
    }

    /// Parks a group.
    pub(crate) fn park(&mut self, group: &Group)
        ensures held { self.new.held ≡ self.old.held }
        ensures parked { AreOneMore group.now self.old self.new }
    {
        let Some(name) = self.names.get(group).copied() else {
            return;
        };
        self.index.park(name);
    }

    /// Looks at a group again.
    pub(crate) fn unpark(&mut self, group: &Group) -> Result<(), Memory>
        ensures held { self.new.held ≡ self.old.held }
        ensures parked { AreFewer self.old self.new }
        ensures ok { OnOk result (IsParked self.new group.now → ⊥) }
    {
        let Some(name) = self.names.get(group).copied() else {
            return Ok(());
        };
        self.index.unpark(name)?;
        Ok(())
    }

    /// The number of the first item of a group.
    pub(crate) fn head(&self, group: &Group) -> Option<u64>
        ensures some { IfSome result (λ n. (s : ℕ) × (holds self.now.held group.now s n ≡ true)) }
        ensures none { IfNone result ((s n : ℕ) → holds self.now.held group.now s n ≡ false) }
    {
        let Some(name) = self.names.get(group).copied() else {
            return None;
        };
        self.index.head(name)
    }

    /// The number of the first item of the first group that isn't parked.
    pub(crate) fn front(&self) -> Option<u64>
        ensures some { IfSome result (IsFrontHeld self.now) }
        ensures none { IfNone result (AllParked self.now) }
    {
        self.index.front()
    }

    /// The group, in the memory of the equal one that has items, where there is one.
    pub(crate) fn intern(&self, group: Group) -> Group
        ensures { result ≡ group }
    {
        let Some((known, _name)) = self.names.get_key_value(&group) else {
            return group;
        };
        match copy_of(known) {
            Ok(copy) => copy,
            Err(_) => group,
        }
    }

    /// The groups, each with its number.
    pub(crate) fn names(&self) -> &BTreeMap<Group, u64>
        ensures { result.now.entries ≡ self.now.held.names }
    {
        &self.names
    }

    /// How many groups aren't parked.
    pub(crate) fn open_groups(&self) -> usize
        ensures { result ≡ length self.now.places }
    {
        self.index.open_groups()
    }

    /// The least score and number for whose group the gate is open. Looks once at each group that isn't
    /// parked.
    pub(crate) fn least_open<G: Gate, L: Ledger>(
        &self,
        items: &BTreeMap<u64, BoxedItem>,
        t: u64,
        gate: &G,
        steps: &mut Steps<L>,
    ) -> Option<(u64, u64)>
        requires of { AreOf items.now.entries (holds self.now.held) }
        requires starts { HaveStarts items.now.entries }
        requires moment { t ≤ last_moment }
        requires closed { AreClosed (G.is_open gate.now t) self.now }
        ensures least { IsLeastHeld (G.is_open gate.now t) (holds self.now.held) result }
        ensures asked { AsksFew (holds self.now.held) steps.old steps.new }
    {
        self.index.least_open(items, t, gate, steps)
    }
}
