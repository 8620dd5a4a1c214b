// The iterator over the starts of throttles.
use crate::places::Place;
use kinds::{Cell, StartEntry};
use std::collections::{BTreeMap, btree_map};
use std::marker::Model;

/// The entries of [`Starts`](crate::Starts) by reference, in order of cell.
#[derive(Drop)]
pub struct Entries<'a> {
    pub(crate) places: btree_map::Iter<'a, Cell, Place>,
    pub(crate) entries: &'a BTreeMap<Place, StartEntry>,
}

impl<'a> Model for Entries<'a> {
    ghost use Rattle.std.specs.Prelude.{List};
    ghost use Rattle.kinds.specs.declared.cell.StartEntry.{StartEntry};
    ghost use Rattle.throttle.specs.Places.{entries_of, AreFound};

    ghost Value = { List StartEntry };

    ghost view = { λ e. entries_of e.places };

    ghost invariant = { λ e. AreFound e.entries.now.entries e.places };
}

impl<'a> Iterator for Entries<'a> {
    ghost use Rattle.std.specs.Iterator.{YieldsFirstRef, item_count};

    type Item = &'a StartEntry;

    ghost next_gives = { YieldsFirstRef (λ e. e) };

    ghost remaining = { item_count (λ e. e) };

    fn next(&mut self) -> Option<&'a StartEntry> {
        let (_, place) = self.places.next()?;
        self.entries.get(place)
    }
}
