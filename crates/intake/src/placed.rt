// Remembered ids, found by number and by id.
ghost use Rattle.std.specs.Prelude.{◌≡◌, [], OnOk, OnErr, find, MatchOption, None, Some, true, false};
ghost use Rattle.std.specs.Option.{option_copied};
ghost use Rattle.kinds.specs.Seen.{has_id, insert_seen, remembered, is_remembered};
ghost use Rattle.intake.specs.Number.{has_number, without_number};
ghost use Rattle.intake.specs.Order.{IsInOrder};
ghost use Rattle.intake.specs.Places.{digest_of, is_of};

use crate::place::{Place, digest, first_place};
use crate::timeline::{Entries, Timeline};
use kinds::SeenEntry;
use lists::Memory;
use std::alloc::Global;
use std::collections::BTreeSet;
use std::marker::Model;

/// Entries in order of number, found by id too. A digest of each id stands beside its number, so that
/// the id itself stands in its entry alone.
#[derive(Drop)]
pub(crate) struct Placed {
    timeline: Timeline,
    places: BTreeSet<Place>,
}

impl Model for Placed {
    ghost use Rattle.std.specs.Prelude.{List};
    ghost use Rattle.kinds.specs.declared.seen.SeenEntry.{SeenEntry};
    ghost use Rattle.intake.specs.Order.{AreListed};
    ghost use Rattle.intake.specs.Places.{digest_of};

    ghost Value = { List SeenEntry };

    ghost view = { λ p. p.timeline };

    ghost invariant = { λ p. AreListed digest_of p.places.keys p.timeline };
}

impl Placed {
    pub(crate) fn empty(alloc: Global) -> Self
        ensures { result ≡ [] }
    {
        Placed {
            timeline: Timeline::empty(alloc),
            places: BTreeSet::new(alloc),
        }
    }

    /// Adds an entry whose number is held by none.
    pub(crate) fn add(&mut self, entry: SeenEntry) -> Result<(), Memory>
        requires { find (has_number entry.number) self.old ≡ None }
        ensures ok { OnOk result (self.new ≡ insert_seen entry self.old) }
        ensures err { OnErr result (self.new ≡ self.old) }
        ensures ordered { OnOk result (IsInOrder self.old) }
    {
        let place = (digest_of(&entry), entry.number);
        self.places.insert(place)?;
        match self.timeline.add(entry) {
            Ok(()) => Ok(()),
            Err(_) => {
                self.places.remove(&place);
                Err(Memory)
            }
        }
    }

    /// Drops the entry that has a number, if there is one.
    pub(crate) fn discard(&mut self, number: u64)
        ensures { self.new ≡ without_number number self.old }
    {
        let Some(entry) = self.timeline.remove(number) else {
            return;
        };
        self.places.remove(&(digest_of(&entry), number));
    }

    /// Takes out an entry that a moment is outside the window of, if there is one.
    pub(crate) fn take_outside(&mut self, moment: u64) -> Option<SeenEntry>
        ensures taken { MatchOption result (remembered moment self.old ≡ self.old)
            (λ e. (find (has_number e.number) self.old ≡ Some e) × (is_remembered moment e ≡ false)) }
        ensures left { MatchOption result (self.new ≡ self.old)
            (λ e. self.new ≡ without_number e.number self.old) }
        ensures ordered { IsInOrder self.old }
    {
        let entry = self.timeline.take_outside(moment)?;
        self.places.remove(&(digest_of(&entry), entry.number));
        Some(entry)
    }

    /// The number of an entry that has an id, if there is one.
    pub(crate) fn number_of(&self, id: &[u8]) -> Option<u64>
        ensures { MatchOption result (find (has_id id.now) self.now ≡ None)
            (λ n. is_of id.now (find (has_number n) self.now) ≡ true) }
    {
        self.timeline.order();
        let Some(place) = first_place(&self.places, id, &self.timeline) else {
            return None;
        };
        Some(place.1)
    }

    /// An entry that has an id, if there is one.
    pub(crate) fn with_id(&self, id: &[u8]) -> Option<&SeenEntry>
        ensures { MatchOption (option_copied result) (find (has_id id.now) self.now ≡ None)
            (λ e. (find (has_number e.number) self.now ≡ Some e) × (has_id id.now e ≡ true)) }
    {
        let number = self.number_of(id)?;
        self.timeline.get(number)
    }

    pub(crate) fn entries(&self) -> Entries<'_>
        ensures { result ≡ self.now }
    {
        self.timeline.entries()
    }
}

fn digest_of(entry: &SeenEntry) -> u64
    ensures { result ≡ digest_of entry.now }
{
    digest(entry.id.as_slice())
}
