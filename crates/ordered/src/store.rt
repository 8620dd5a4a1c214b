// Entries in order of rank and number, found by number and by run.
ghost use Rattle.std.specs.Prelude.{◌≡◌, [], find, None, OnOk, OnErr, IfSome, length};
ghost use Rattle.std.specs.Option.{option_map, option_copied, IfNone};
ghost use Rattle.std.specs.List.{slice_get};
ghost use Rattle.lists.specs.Entries.{has, without, is_due, insert_in, AreApart, IsInOrder, Leaves};
ghost use Rattle.ordered.specs.Indexes.{IsTakenOf};

use crate::numbered::{Entries, Numbered};
use crate::ranked::OfRun;
use lists::Memory;
use std::alloc::Global;
use std::collections::BTreeSet;
use std::marker::Model;

/// Entries in order of rank and number, each with a number of its own. Found by number and by run.
#[derive(Drop)]
pub struct Ordered<E: OfRun> {
    numbered: Numbered<E>,
    runs: BTreeSet<(u64, u64)>,
}

impl<E: OfRun> Model for Ordered<E> {
    ghost use Rattle.std.specs.Prelude.{List};
    ghost use Rattle.std.specs.Ordering.{nat_cmp};
    ghost use Rattle.ordered.specs.Indexes.{IsListed};

    ghost Value = { List E };

    ghost view = { λ s. s.numbered };

    ghost invariant = { λ s. IsListed nat_cmp E.run_of E.number_of s.numbered s.runs.keys };
}

impl<E: OfRun> Ordered<E> {
    /// A store without entries, which takes no memory.
    pub fn empty(alloc: Global) -> Self
        ensures { result ≡ [] }
    {
        Ordered {
            numbered: Numbered::empty(alloc),
            runs: BTreeSet::new(alloc),
        }
    }

    /// Adds an entry whose number is held by none.
    pub fn put(&mut self, entry: E) -> Result<(), Memory>
        requires { find (has E.number_of (E.number_of entry)) self.old ≡ None }
        ensures ok { OnOk result (self.new ≡ insert_in E.rank_of E.number_of entry self.old) }
        ensures err { OnErr result (self.new ≡ self.old) }
        ensures apart { AreApart E.number_of self.old }
    {
        let key = (entry.run(), entry.number());
        self.runs.insert(key)?;
        match self.numbered.put(entry) {
            Ok(()) => Ok(()),
            Err(_) => {
                self.runs.remove(&key);
                return Err(Memory);
            }
        }
    }

    /// The entry that has a number.
    pub fn get(&self, number: u64) -> Option<&E>
        ensures { option_copied result ≡ find (has E.number_of number) self.now }
    {
        self.numbered.get(number)
    }

    /// Takes out the entry that has a number.
    pub fn remove(&mut self, number: u64) -> Option<E>
        ensures value { result ≡ find (has E.number_of number) self.old }
        ensures left { self.new ≡ without E.number_of number self.old }
        ensures apart { AreApart E.number_of self.old }
    {
        let entry = self.numbered.remove(number)?;
        self.runs.remove(&(entry.run(), number));
        Some(entry)
    }

    /// Drops the entry that has a number, if there is one.
    pub fn drop_number(&mut self, number: u64)
        ensures { self.new ≡ without E.number_of number self.old }
    {
        let _ = self.remove(number);
    }

    /// Takes out the least entry by rank and number, if its rank is at most the limit.
    pub fn take_due(&mut self, limit: u64) -> Option<E>
        ensures least { result ≡ find (is_due E.rank_of limit) self.old }
        ensures left { Leaves E.number_of self.old result self.new }
        ensures apart { AreApart E.number_of self.old }
    {
        let entry = self.numbered.take_due(limit)?;
        self.runs.remove(&(entry.run(), entry.number()));
        Some(entry)
    }

    /// Takes out an entry of a run. Looks at the run's entries alone.
    pub fn take_of(&mut self, run: u64) -> Option<E>
        ensures one { IfSome result (λ e. IsTakenOf E.run_of E.number_of run self.old e self.new) }
        ensures same { IfNone result (self.new ≡ self.old) }
        ensures none { IfNone result (find (has E.run_of run) self.old ≡ None) }
        ensures apart { AreApart E.number_of self.old }
    {
        let Some(&(found, number)) = self.runs.range((run, 0)..).next() else {
            return None;
        };
        if found != run {
            return None;
        }
        self.remove(number)
    }

    /// Drops the entries of a run. Looks at these alone.
    pub fn drop_run(&mut self, run: u64)
        ensures { self.new ≡ without E.run_of run self.old }
    {
        while let Some(_entry) = self.take_of(run) {}
    }

    /// The rank of the least entry.
    pub fn next_rank(&self) -> Option<u64>
        ensures { result ≡ option_map E.rank_of (slice_get self.now 0) }
    {
        let (rank, _) = self.numbered.first()?;
        Some(rank)
    }

    /// The entries stand in order, and no two have the same number. Does nothing.
    pub fn order(&self)
        ensures ordered { IsInOrder E.rank_of E.number_of self.now }
        ensures apart { AreApart E.number_of self.now }
    {
        self.numbered.order();
    }

    /// How many entries are held.
    pub fn len(&self) -> usize
        ensures { result ≡ length self.now }
    {
        self.numbered.len()
    }

    /// The entries by reference, in order.
    pub fn entries(&self) -> Entries<'_, E>
        ensures { result ≡ self.now }
    {
        self.numbered.entries()
    }
}
