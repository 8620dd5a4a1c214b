// The groups in order of what comes first of each.
ghost use Rattle.std.specs.Prelude.{◌≡◌, [], length, OnOk, OnErr, Some, None};
ghost use Rattle.std.specs.BTreeMap.{insert_entry, is_at};
ghost use Rattle.std.specs.Map.{remove_entry};
ghost use Rattle.std.specs.Ordering.{nat_cmp};
ghost use Rattle.ready_queue.specs.Places.{place_at, is_front, IsShown, IsHidden, IsFronts, Puts};

use lists::Memory;
use std::alloc::Global;
use std::collections::{BTreeMap, BTreeSet};
use std::marker::Model;

/// Where a group stands in the order of the groups: not after any of its keys.
#[derive(Clone, Copy)]
pub(crate) struct Place {
    pub(crate) score: u64,
    pub(crate) number: u64,
}

/// The places of groups, and the groups in order of them.
#[derive(Drop)]
pub(crate) struct Fronts {
    order: BTreeSet<(u64, u64, u64)>,
    places: BTreeMap<u64, Place>,
}

impl Model for Fronts {
    ghost use Rattle.std.specs.Prelude.{List, ℕ};
    ghost use Rattle.ready_queue.specs.declared.fronts.Place.{Place};
    ghost use Rattle.ready_queue.specs.Places.{IsFronts};

    ghost Value = { List (ℕ × Place) };

    ghost view = { λ f. f.places.entries };

    ghost invariant = { λ f. IsFronts f.order.keys f.places.entries };
}

#[tactic(auto, unfolding(crate::specs::Places::is_front))]
fn is_front(score: u64, number: u64, place: Place) -> bool
    ensures { result ≡ is_front score number (Some place) }
{
    score == place.score && number == place.number
}

/// Puts a group into the order.
fn show(order: &mut BTreeSet<(u64, u64, u64)>, group: u64, place: Place) -> Result<(), Memory>
    ensures ok { OnOk result (IsShown group place order.old.keys order.new.keys) }
    ensures err { OnErr result (order.new.keys ≡ order.old.keys) }
{
    order.insert((place.score, place.number, group))?;
    Ok(())
}

/// Takes a group out of the order where it stood, unless its new place is there.
fn hide(order: &mut BTreeSet<(u64, u64, u64)>, group: u64, old: Place, place: Option<Place>)
    ensures { IsHidden group old place order.old.keys order.new.keys }
{
    if let Some(now) = place {
        if is_front(old.score, old.number, now) {
            return;
        }
    }
    order.remove(&(old.score, old.number, group));
}

impl Fronts {
    pub(crate) fn empty(alloc: Global) -> Self
        ensures { result ≡ [] }
    {
        Fronts {
            order: BTreeSet::new(alloc),
            places: BTreeMap::new(alloc),
        }
    }

    pub(crate) fn place(&self, group: u64) -> Option<Place>
        ensures { result ≡ place_at group self.now }
    {
        self.places.get(&group).copied()
    }

    /// How many groups have a place.
    pub(crate) fn len(&self) -> usize
        ensures { result ≡ length self.now }
    {
        self.places.len()
    }

    /// Gives a group a place, instead of the one that it has.
    #[tactic(auto, unfolding(crate::specs::Places::Puts))]
    pub(crate) fn put(&mut self, group: u64, place: Place) -> Result<(), Memory>
        ensures ok { OnOk result (self.new ≡ insert_entry nat_cmp self.old group place) }
        ensures puts { OnOk result (Puts group (Some place) self.old self.new) }
        ensures err { OnErr result (self.new ≡ self.old) }
    {
        show(&mut self.order, group, place)?;
        match self.places.insert(group, place) {
            Ok(Some(old)) => hide(&mut self.order, group, old, Some(place)),
            Ok(None) => {}
            Err(_) => {
                hide(&mut self.order, group, place, None);
                return Err(Memory);
            }
        }
        Ok(())
    }

    /// The groups' places in order.
    pub(crate) fn order(&self) -> &BTreeSet<(u64, u64, u64)>
        ensures { IsFronts result.now.keys self.now }
    {
        &self.order
    }

    /// Takes a group out.
    #[tactic(auto, unfolding(crate::specs::Places::Puts))]
    pub(crate) fn discard(&mut self, group: u64)
        ensures left { self.new ≡ remove_entry (is_at (nat_cmp group)) self.old }
        ensures puts { Puts group None self.old self.new }
    {
        let Some(place) = self.places.remove(&group) else {
            return;
        };
        hide(&mut self.order, group, place, None);
    }
}
