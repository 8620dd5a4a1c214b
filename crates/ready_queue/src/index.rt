// The keys of items by group, and which groups are looked at.
ghost use Rattle.std.specs.Prelude.{◌≡◌, ◌+◌, ◌≤◌, ℕ, List, ◌⊎◌, [], length, true, false, None};
ghost use Rattle.std.specs.Prelude.{OnOk, OnErr, IfSome};
ghost use Rattle.std.specs.Option.{IfNone};
ghost use Rattle.std.specs.Bool.{OnTrue, OnFalse};
ghost use Rattle.kinds.specs.Cells.{last_moment};
ghost use Rattle.ready_queue.specs.Different.{HasGroups, different};
ghost use Rattle.ready_queue.specs.Front.{IsFrontAt};
ghost use Rattle.ready_queue.specs.Keys.{has, Changes, IsLeastOpen, AreAlike};
ghost use Rattle.ready_queue.specs.Opens.{opens, HaveStarts};
ghost use Rattle.ready_queue.specs.Places.{place_at, lowered, IsRaised, IsRestored, IsParkedAt};
ghost use Rattle.ready_queue.specs.Places.{ParksNone, ParksOne, AreShut};

use crate::Gate;
use crate::boxed::BoxedItem;
use crate::fronts::{Fronts, Place};
use crate::walk::{comes_first, head, least_open};
use kinds::Steps;
use lists::Memory;
use std::alloc::Global;
use std::collections::{BTreeMap, BTreeSet};
use std::marker::Model;
use std::sync::ledger::Ledger;

/// The keys (group, score, number) of items, with a place for each group that has any and isn't parked.
#[derive(Drop)]
pub(crate) struct Index {
    keys: BTreeSet<(u64, u64, u64)>,
    fronts: Fronts,
}

impl Model for Index {
    ghost use Rattle.ready_queue.specs.Places.{Indexed, IsIndexed};

    ghost Value = { Indexed };

    ghost view = { λ i. record { keys = i.keys.keys; places = i.fronts } };

    ghost invariant = { λ i. IsIndexed i.keys.keys i.fronts };
}

/// The place that a group gets with a further key.
fn lowered(old: Option<Place>, score: u64, number: u64) -> Place
    ensures { result ≡ lowered old score number }
{
    match old {
        None => Place { score, number },
        Some(place) => {
            if comes_first((place.score, place.number), (score, number)) {
                place
            } else {
                Place { score, number }
            }
        }
    }
}

/// Moves a group's place on to its least key. Without memory for this the place stays where it is.
fn raise(fronts: &mut Fronts, group: u64, least: (u64, u64))
    ensures { IsRaised group least fronts.old fronts.new }
{
    let Some(_place) = fronts.place(group) else {
        return;
    };
    let next = Place {
        score: least.0,
        number: least.1,
    };
    match fronts.put(group, next) {
        Ok(()) => {}
        Err(Memory) => {}
    }
}

/// Takes a group out that had no place before.
fn restore(fronts: &mut Fronts, group: u64, old: Option<Place>)
    ensures { IsRestored group old fronts.old fronts.new }
{
    match old {
        None => fronts.discard(group),
        Some(_) => {}
    }
}

impl Index {
    pub(crate) fn empty(alloc: Global) -> Self
        ensures keys { result.keys ≡ [] }
        ensures places { result.places ≡ [] }
    {
        Index {
            keys: BTreeSet::new(alloc),
            fronts: Fronts::empty(alloc),
        }
    }

    /// Whether a group has keys and no place.
    fn is_parked(&self, group: u64) -> bool
        ensures parked { OnTrue result (IsParkedAt group self.now) }
        ensures other { OnFalse result (IsParkedAt group self.now → ⊥) }
    {
        if let Some(_place) = self.fronts.place(group) {
            return false;
        }
        let Some(_least) = head(&self.keys, group) else {
            return false;
        };
        true
    }

    // Adds a key of a group that is parked.
    #[tactic(auto, unfolding(crate::specs::Keys::Changes))]
    fn add_parked(&mut self, group: u64, score: u64, number: u64) -> Result<(), Memory>
        requires { IsParkedAt group self.old }
        ensures ok { OnOk result (Changes group score number true self.old.keys self.new.keys) }
        ensures err { OnErr result (self.new.keys ≡ self.old.keys) }
        ensures parked { ParksNone self.old self.new }
    {
        self.keys.insert((group, score, number))?;
        Ok(())
    }

    // Adds a key of a group that isn't parked.
    #[tactic(auto, unfolding(crate::specs::Keys::Changes))]
    fn add_placed(&mut self, group: u64, score: u64, number: u64) -> Result<(), Memory>
        requires { IsParkedAt group self.old → ⊥ }
        ensures ok { OnOk result (Changes group score number true self.old.keys self.new.keys) }
        ensures err { OnErr result (self.new.keys ≡ self.old.keys) }
        ensures parked { ParksNone self.old self.new }
    {
        let old = self.fronts.place(group);
        self.fronts.put(group, lowered(old, score, number))?;
        match self.keys.insert((group, score, number)) {
            Ok(_) => Ok(()),
            Err(_) => {
                restore(&mut self.fronts, group, old);
                Err(Memory)
            }
        }
    }

    /// Adds a key.
    pub(crate) fn add(&mut self, group: u64, score: u64, number: u64) -> Result<(), Memory>
        ensures ok { OnOk result (Changes group score number true self.old.keys self.new.keys) }
        ensures err { OnErr result (self.new.keys ≡ self.old.keys) }
        ensures parked { ParksNone self.old self.new }
    {
        if self.is_parked(group) {
            self.add_parked(group, score, number)
        } else {
            self.add_placed(group, score, number)
        }
    }

    /// Takes a key out, and says whether its group has others.
    #[tactic(auto, unfolding(crate::specs::Keys::Changes))]
    pub(crate) fn remove(&mut self, group: u64, score: u64, number: u64) -> bool
        ensures changes { Changes group score number false self.old.keys self.new.keys }
        ensures others { OnFalse result ((s n : ℕ) → has self.new.keys group s n ≡ false) }
        ensures parked { ParksNone self.old self.new }
    {
        self.keys.remove(&(group, score, number));
        match head(&self.keys, group) {
            None => {
                self.fronts.discard(group);
                false
            }
            Some(least) => {
                raise(&mut self.fronts, group, least);
                true
            }
        }
    }

    /// Takes a group's place.
    pub(crate) fn park(&mut self, group: u64)
        ensures keys { self.new.keys ≡ self.old.keys }
        ensures parked { ParksOne group self.old self.new }
    {
        self.fronts.discard(group);
    }

    /// Gives a group a place again.
    pub(crate) fn unpark(&mut self, group: u64) -> Result<(), Memory>
        ensures keys { self.new.keys ≡ self.old.keys }
        ensures parked { ParksNone self.old self.new }
        ensures ok { OnOk result (IsParkedAt group self.new → ⊥) }
    {
        let Some((score, number)) = head(&self.keys, group) else {
            return Ok(());
        };
        self.fronts.put(group, Place { score, number })?;
        Ok(())
    }

    /// The number of the least key of a group.
    pub(crate) fn head(&self, group: u64) -> Option<u64>
        ensures some { IfSome result (λ n. (s : ℕ) × (has self.now.keys group s n ≡ true)) }
        ensures none { IfNone result ((s n : ℕ) → has self.now.keys group s n ≡ false) }
    {
        let Some(least) = head(&self.keys, group) else {
            return None;
        };
        Some(least.1)
    }

    /// The number of the first item of the first group that has a place.
    pub(crate) fn front(&self) -> Option<u64>
        ensures some { IfSome result (IsFrontAt self.now) }
        ensures none { IfNone result ((g : ℕ) → place_at g self.now.places ≡ None) }
    {
        let Some(first) = self.fronts.order().first() else {
            return None;
        };
        self.head(first.2)
    }

    /// How many groups aren't parked.
    pub(crate) fn open_groups(&self) -> usize
        ensures { result ≡ length self.now.places }
    {
        self.fronts.len()
    }

    /// The least key for whose item the gate is open. Looks once at each group that isn't parked.
    pub(crate) fn least_open<G: Gate, L: Ledger>(
        &self,
        items: &BTreeMap<u64, BoxedItem>,
        t: u64,
        gate: &G,
        steps: &mut Steps<L>,
    ) -> Option<(u64, u64)>
        requires alike { AreAlike (opens (G.is_open gate.now t) items.now.entries) self.now.keys }
        requires shut { AreShut (opens (G.is_open gate.now t) items.now.entries) self.now }
        requires starts { HaveStarts items.now.entries }
        requires moment { t ≤ last_moment }
        ensures least { IsLeastOpen (opens (G.is_open gate.now t) items.now.entries)
            self.now.keys result }
        ensures asked { (gs : List ℕ) → HasGroups gs self.now.keys
            → steps.new ≤ steps.old + different gs }
    {
        least_open(items, &self.keys, self.fronts.order(), t, gate, steps)
    }
}
