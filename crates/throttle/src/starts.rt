// The store of the starts of throttles.
ghost use Rattle.std.specs.Prelude.{◌≡◌, ◌<◌, ◌≤◌, ℕ, [], true, false, find, length, None, OnOk, OnErr, nat_le};
ghost use Rattle.kinds.specs.Cells.{IsThrottle, last_moment, spacing, slack, has_start, greatest_at, is_allowed, release_moment, after_start, later_starts};
ghost use Rattle.throttle.specs.Inequality.{FollowsInequality, StandsForOneMore, put_greatest};

use crate::Entries;
use crate::places::{Place, leave, settle, stand};
use kinds::{Cell, StartEntry};
use lists::Memory;
use std::alloc::Global;
use std::collections::BTreeMap;
use std::marker::Model;

/// For each cell of a throttle the greatest `s + m * T` over its starts `s`, with `m` the starts from `s` on
/// and `T` the period divided by the limit, rounded up. Contracts see the list of entries in order of cell,
/// and each list of starts that an entry stands for. Moments are milliseconds since 1970.
#[derive(Drop)]
pub struct Starts {
    places: BTreeMap<Cell, Place>,
    entries: BTreeMap<Place, StartEntry>,
    next: u64,
}

impl Model for Starts {
    ghost use Rattle.std.specs.Prelude.{List};
    ghost use Rattle.kinds.specs.declared.cell.StartEntry.{StartEntry};
    ghost use Rattle.throttle.specs.Places.{entries_of, IsIndexed};

    ghost Value = { List StartEntry };

    ghost view = { λ s. entries_of s.places.entries };

    ghost invariant = { λ s. IsIndexed s.places.entries s.entries.entries s.next };
}

/// The time between two starts in milliseconds, and how far ahead of it a cell may run.
#[derive(Clone, Copy)]
struct Pace {
    spacing: u64,
    slack: u64,
}

fn pace_of(cell: &Cell) -> Pace
    requires { IsThrottle cell.now }
    ensures spacing { result.spacing ≡ spacing cell.now }
    ensures slack { result.slack ≡ slack cell.now }
    ensures short { result.spacing ≤ 31622400000 }
    ensures near { result.slack ≤ 31622368377600000 }
{
    match cell {
        Cell::Throttle {
            limit,
            period,
            burst,
            ..
        } => {
            let spacing = (*period + (*limit as u64 - 1)) / *limit as u64;
            Pace {
                spacing,
                slack: (*burst as u64 - 1) * spacing,
            }
        }
        _ => Pace {
            spacing: 0,
            slack: 0,
        },
    }
}

impl Starts {
    /// A value without entries, which takes no memory.
    pub fn empty(alloc: Global) -> Self
        ensures { result ≡ [] }
    {
        Starts {
            places: BTreeMap::new(alloc),
            entries: BTreeMap::new(alloc),
            next: 0,
        }
    }

    /// The greatest of a cell, and 0 where it has none.
    fn greatest(&self, cell: &Cell) -> u64
        ensures { result ≡ greatest_at cell.now self.now }
    {
        match self.places.get(cell) {
            Some(place) => place.0,
            None => 0,
        }
    }

    /// Whether the throttle lets a run start at a moment.
    pub fn allowed(&self, cell: &Cell, t: u64) -> bool
        requires throttle { IsThrottle cell.now }
        requires moment { t ≤ last_moment }
        ensures allowed { result ≡ is_allowed cell.now t self.now }
        ensures inequality { FollowsInequality self.now cell.now t result }
    {
        self.greatest(cell) <= t + pace_of(cell).slack
    }

    /// The least moment at which the throttle lets a run start.
    pub fn release_moment(&self, cell: &Cell) -> u64
        requires { IsThrottle cell.now }
        ensures moment { result ≡ release_moment cell.now self.now }
        ensures least { (t : ℕ) → is_allowed cell.now t self.now ≡ nat_le result t }
    {
        self.greatest(cell).saturating_sub(pace_of(cell).slack)
    }

    /// A run starts.
    pub fn start(&mut self, cell: &Cell, t: u64) -> Result<(), Memory>
        requires throttle { IsThrottle cell.now }
        requires moment { t ≤ last_moment }
        requires allowed { is_allowed cell.now t self.old ≡ true }
        ensures ok { OnOk result (self.new ≡ after_start cell.now t self.old) }
        ensures stands { OnOk result (StandsForOneMore self.old self.new cell.now t) }
        ensures err { OnErr result (self.new ≡ self.old) }
    {
        let greatest = self.greatest(cell).max(t) + pace_of(cell).spacing;
        self.put(cell, greatest)?;
        Ok(())
    }

    /// The cell's starts are those of a state that is read back, which had this greatest `s + m * T`.
    pub fn restore(&mut self, cell: &Cell, greatest: u64) -> Result<(), Memory>
        requires throttle { IsThrottle cell.now }
        requires fresh { find (has_start cell.now) self.old ≡ None }
        requires started { spacing cell.now ≤ greatest }
        ensures ok { OnOk result (self.new ≡ put_greatest cell.now greatest self.old) }
        ensures err { OnErr result (self.new ≡ self.old) }
    {
        self.put(cell, greatest)?;
        Ok(())
    }

    // Gives a cell a greatest, in place of the one that it has.
    fn put(&mut self, cell: &Cell, greatest: u64) -> Result<(), Memory>
        ensures ok { OnOk result (self.new ≡ put_greatest cell.now greatest self.old) }
        ensures err { OnErr result (self.new ≡ self.old) }
    {
        let place = (greatest, self.next);
        let Some(next) = self.next.checked_add(1) else {
            return Err(Memory);
        };
        stand(&mut self.entries, cell, place)?;
        self.next = next;
        match settle(&mut self.places, cell, place) {
            Ok(Some(left)) => {
                leave(&mut self.entries, left);
                Ok(())
            }
            Ok(None) => Ok(()),
            Err(_) => {
                leave(&mut self.entries, place);
                Err(Memory)
            }
        }
    }

    /// Drops the entries that tell nothing of starts from a moment on: from their greatest on, a cell lets
    /// runs start as if it were new. Looks at these entries alone.
    pub fn forget(&mut self, moment: u64)
        ensures { self.new ≡ later_starts moment self.old }
    {
        while self.forget_first(moment) {}
    }

    // Drops the entry of the least greatest, where that isn't after the moment.
    fn forget_first(&mut self, moment: u64) -> bool
        ensures later { later_starts moment self.new ≡ later_starts moment self.old }
        ensures fewer { result ≡ true → length self.new < length self.old }
        ensures rest { result ≡ false → self.new ≡ later_starts moment self.old }
    {
        let Some((place, entry)) = self.entries.first_key_value() else {
            return false;
        };
        if moment < place.0 {
            return false;
        }
        self.places.remove(&entry.cell);
        let place = *place;
        leave(&mut self.entries, place);
        true
    }

    /// The entries by reference, in order of cell.
    pub fn entries(&self) -> Entries<'_>
        ensures { result ≡ self.now }
    {
        Entries {
            places: self.places.iter(),
            entries: &self.entries,
        }
    }
}
