// Remembered ids in order of number and of moment.
ghost use Rattle.std.specs.Prelude.{◌≡◌, [], OnOk, OnErr, find, MatchOption, false};
ghost use Rattle.std.specs.Option.{option_copied};
ghost use Rattle.kinds.specs.Seen.{insert_seen, remembered, is_remembered};
ghost use Rattle.intake.specs.Number.{has_number, without_number};
ghost use Rattle.intake.specs.Order.{IsInOrder};
ghost use Rattle.intake.specs.Places.{is_of};

use crate::window::is_inside;
use kinds::SeenEntry;
use lists::Memory;
use std::alloc::Global;
use std::collections::{BTreeMap, BTreeSet, btree_map};
use std::marker::Model;

/// Entries in order of number. Their moments are kept in order beside them, so that the oldest is at
/// hand.
#[derive(Drop)]
pub(crate) struct Timeline {
    entries: BTreeMap<u64, SeenEntry>,
    moments: BTreeSet<(u64, u64)>,
}

impl Model for Timeline {
    ghost use Rattle.std.specs.Prelude.{List};
    ghost use Rattle.std.specs.BTreeMap.{values};
    ghost use Rattle.kinds.specs.declared.seen.SeenEntry.{SeenEntry};
    ghost use Rattle.intake.specs.Order.{IsTimeline};

    ghost Value = { List SeenEntry };

    ghost view = { λ t. values t.entries };

    ghost invariant = { λ t. IsTimeline t.entries.entries t.moments.keys };
}

impl Timeline {
    pub(crate) fn empty(alloc: Global) -> Self
        ensures { result ≡ [] }
    {
        Timeline {
            entries: BTreeMap::new(alloc),
            moments: BTreeSet::new(alloc),
        }
    }

    /// Adds an entry whose number is held by none.
    pub(crate) fn add(&mut self, entry: SeenEntry) -> Result<(), Memory>
        requires { find (has_number entry.number) self.old ≡ None }
        ensures ok { OnOk result (self.new ≡ insert_seen entry self.old) }
        ensures err { OnErr result (self.new ≡ self.old) }
        ensures ordered { IsInOrder self.old }
    {
        let number = entry.number;
        let moment = entry.moment;
        self.moments.insert((moment, number))?;
        match self.entries.insert(number, entry) {
            Ok(_) => Ok(()),
            Err(_) => {
                self.moments.remove(&(moment, number));
                Err(Memory)
            }
        }
    }

    /// The entries stand in order of number. Does nothing.
    pub(crate) fn order(&self)
        ensures { IsInOrder self.now }
    {
        let _ = &self.entries;
    }

    /// The entry that has a number.
    pub(crate) fn get(&self, number: u64) -> Option<&SeenEntry>
        ensures { option_copied result ≡ find (has_number number) self.now }
    {
        self.entries.get(&number)
    }

    /// Whether the entry that has a number has the id.
    pub(crate) fn has_id(&self, id: &[u8], number: u64) -> bool
        ensures { result ≡ is_of id.now (find (has_number number) self.now) }
    {
        match self.get(number) {
            Some(entry) => id == entry.id.as_slice(),
            None => false,
        }
    }

    /// Takes out the entry that has a number.
    pub(crate) fn remove(&mut self, number: u64) -> Option<SeenEntry>
        ensures value { result ≡ find (has_number number) self.old }
        ensures left { self.new ≡ without_number number self.old }
        ensures ordered { IsInOrder self.old }
    {
        let entry = self.entries.remove(&number)?;
        self.moments.remove(&(entry.moment, number));
        Some(entry)
    }

    /// Takes out an entry that a moment is outside the window of, if there is one.
    pub(crate) fn take_outside(&mut self, moment: u64) -> Option<SeenEntry>
        ensures taken { MatchOption result (remembered moment self.old ≡ self.old)
            (λ e. (find (has_number e.number) self.old ≡ Some e) × (is_remembered moment e ≡ false)) }
        ensures left { MatchOption result (self.new ≡ self.old)
            (λ e. self.new ≡ without_number e.number self.old) }
        ensures ordered { IsInOrder self.old }
    {
        let (accepted, number) = *self.moments.first()?;
        if is_inside(accepted, moment) {
            return None;
        }
        self.remove(number)
    }

    pub(crate) fn entries(&self) -> Entries<'_>
        ensures { result ≡ self.now }
    {
        Entries {
            inner: self.entries.values(),
        }
    }
}

/// The entries of a [`Seen`](crate::Seen) by reference, in order of number.
#[derive(Drop)]
pub struct Entries<'a> {
    inner: btree_map::Values<'a, u64, SeenEntry>,
}

impl<'a> Model for Entries<'a> {
    ghost use Rattle.std.specs.Prelude.{List};
    ghost use Rattle.kinds.specs.declared.seen.SeenEntry.{SeenEntry};

    ghost Value = { List SeenEntry };

    ghost view = { λ e. e.inner };
}

impl<'a> Iterator for Entries<'a> {
    ghost use Rattle.std.specs.Iterator.{YieldsFirstRef, item_count};

    type Item = &'a SeenEntry;

    ghost next_gives = { YieldsFirstRef (λ e. e) };

    ghost remaining = { item_count (λ e. e) };

    fn next(&mut self) -> Option<&'a SeenEntry> {
        self.inner.next()
    }
}
