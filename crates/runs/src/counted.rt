// How many there are of each.
ghost use Rattle.std.specs.Prelude.{◌≡◌, ◌<◌, [], Some, nat_lt, OnOk};
ghost use Rattle.runs.specs.Counts.{count_of, Sets, IsRaised, IsLowered};

use lists::Memory;
use std::alloc::Global;
use std::collections::BTreeMap;
use std::marker::Model;

/// For each part that things have, how many do. Contracts see the counts in order of part.
#[derive(Drop)]
pub(crate) struct Counted {
    counts: BTreeMap<u64, u64>,
}

impl Model for Counted {
    ghost use Rattle.std.specs.Prelude.{List, ℕ};
    ghost use Rattle.runs.specs.Counts.{NoneIsZero};

    ghost Value = { List (ℕ × ℕ) };

    ghost view = { λ c. c.counts.entries };

    ghost invariant = { λ c. NoneIsZero c.counts.entries };
}

impl Counted {
    pub(crate) fn empty(alloc: Global) -> Self
        ensures { result ≡ [] }
    {
        Counted {
            counts: BTreeMap::new(alloc),
        }
    }

    /// Whether a thing has the part.
    pub(crate) fn any(&self, part: u64) -> bool
        ensures { result ≡ nat_lt 0 (count_of part self.now) }
    {
        self.counts.contains_key(&part)
    }

    /// One more has the part. A count of 2^64 counts as want of memory.
    pub(crate) fn add(&mut self, part: u64) -> Result<(), Memory>
        ensures { OnOk result (IsRaised part self.old self.new) }
    {
        let count = self.count(part).checked_add(1).ok_or(Memory)?;
        self.counts.insert(part, count)?;
        Ok(())
    }

    /// One fewer has the part.
    pub(crate) fn remove(&mut self, part: u64)
        ensures { IsLowered part self.old self.new }
    {
        let count = self.count(part);
        if count > 1 {
            self.set(part, count - 1);
        } else {
            self.counts.remove(&part);
        }
    }

    // How many have the part.
    fn count(&self, part: u64) -> u64
        ensures { result ≡ count_of part self.now }
    {
        self.counts.get(&part).copied().unwrap_or(0)
    }

    // Changes the count of a part that has one.
    fn set(&mut self, part: u64, count: u64)
        requires counted { 0 < count_of part self.old }
        requires some { 0 < count }
        ensures { Sets part (Some count) self.old self.new }
    {
        if let Some(place) = self.counts.get_mut(&part) {
            *place = count;
        }
    }
}
