// The public store of remembered ids.
ghost use Rattle.std.specs.Prelude.{◌≡◌, ◌<◌, [], length, find, OnOk, OnErr};
ghost use Rattle.std.specs.Bool.{OnFalse, OnTrue};
ghost use Rattle.kinds.specs.Seen.{find_seen, note_seen, remembered, weight_of};
ghost use Rattle.intake.specs.Number.{has_number};

use crate::placed::Placed;
use crate::timeline::Entries;
use crate::window::is_inside;
use kinds::SeenEntry;
use lists::{Bytes, Memory};
use std::alloc::Global;
use std::marker::Model;

/// The event ids that tell a repeated event: each has the number of its event and the moment when it
/// was accepted, in milliseconds since 1970, and tells for less than 86,400,000 ms. Contracts see the
/// list of entries in order of number.
#[derive(Drop)]
pub struct Seen {
    alloc: Global,
    placed: Placed,
    weight: u64,
}

impl Model for Seen {
    ghost use Rattle.std.specs.Prelude.{List};
    ghost use Rattle.kinds.specs.declared.seen.SeenEntry.{SeenEntry};
    ghost use Rattle.intake.specs.Places.{IsSeen};

    ghost Value = { List SeenEntry };

    ghost view = { λ s. s.placed };

    ghost invariant = { λ s. IsSeen s.placed s.weight };
}

impl Seen {
    /// A value without entries, which takes no memory.
    pub fn empty(alloc: Global) -> Self
        ensures { result ≡ [] }
    {
        Seen {
            alloc,
            placed: Placed::empty(alloc),
            weight: 0,
        }
    }

    /// The number of the event that has this id, where less than a day has passed since it was
    /// accepted. A moment before that counts as inside the day.
    pub fn find(&self, id: &[u8], moment: u64) -> Option<u64>
        ensures { result ≡ find_seen id.now moment self.now }
    {
        let entry = self.placed.with_id(id)?;
        if is_inside(entry.moment, moment) {
            Some(entry.number)
        } else {
            None
        }
    }

    /// Remembers an id from a moment on. Takes the place of an entry of this id whose day is over and
    /// that is still held. A weight of 2^64 or more counts as want of memory.
    pub fn note(&mut self, id: &[u8], number: u64, moment: u64) -> Result<(), Memory>
        requires unseen { find_seen id.now moment self.old ≡ None }
        requires fresh { find (has_number number) self.old ≡ None }
        ensures ok { OnOk result (self.new ≡
            note_seen (record { id = id.now; number = number; moment = moment }) self.old) }
        ensures err { OnErr result (self.new ≡ self.old) }
    {
        let grown = self.weight.checked_add(id.len() as u64 + 64).ok_or(Memory)?;
        let held = self.placed.number_of(id);
        let entry = SeenEntry {
            id: Bytes::from_slice(self.alloc, id)?,
            number,
            moment,
        };
        self.placed.add(entry)?;
        match held {
            Some(old) => self.placed.discard(old),
            None => self.weight = grown,
        }
        Ok(())
    }

    /// Drops the ids whose day is over at a moment.
    pub fn forget(&mut self, moment: u64)
        ensures { self.new ≡ remembered moment self.old }
    {
        while self.forget_one(moment) {}
    }

    // Drops one id whose day is over, and says whether there was one.
    fn forget_one(&mut self, moment: u64) -> bool
        ensures dropped { OnTrue result ((remembered moment self.new ≡ remembered moment self.old)
            × (length self.new < length self.old)) }
        ensures left { OnFalse result ((self.new ≡ self.old) × (remembered moment self.old ≡ self.old)) }
    {
        match self.placed.take_outside(moment) {
            Some(entry) => {
                self.weight -= entry.id.len() as u64 + 64;
                true
            }
            None => false,
        }
    }

    /// What the entries count against the limit of kept bytes: each id's length and 64.
    pub fn weight(&self) -> u64
        ensures { result ≡ weight_of self.now }
    {
        self.weight
    }

    /// The entries by reference, in order of number.
    pub fn entries(&self) -> Entries<'_>
        ensures { result ≡ self.now }
    {
        self.placed.entries()
    }
}
