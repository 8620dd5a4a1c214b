// Entries in order of rank and number, found by number.
ghost use Rattle.std.specs.Prelude.{◌≡◌, [], find, None, OnOk, OnErr, length};
ghost use Rattle.std.specs.Option.{option_map, option_copied};
ghost use Rattle.std.specs.List.{slice_get};
ghost use Rattle.lists.specs.Entries.{has, without, is_due, key_of, insert_in, AreApart, Leaves, IsInOrder};

use crate::ranked::Ranked;
use lists::Memory;
use std::alloc::Global;
use std::collections::{BTreeMap, btree_map};
use std::marker::Model;

/// Entries in order of rank and number, each with a number of its own, by which it is found.
#[derive(Drop)]
pub struct Numbered<E: Ranked> {
    entries: BTreeMap<(u64, u64), E>,
    ranks: BTreeMap<u64, u64>,
}

impl<E: Ranked> Model for Numbered<E> {
    ghost use Rattle.std.specs.Prelude.{List};
    ghost use Rattle.std.specs.BTreeMap.{values};
    ghost use Rattle.ordered.specs.Indexes.{IsKept};

    ghost Value = { List E };

    ghost view = { λ s. values s.entries };

    ghost invariant = { λ s. IsKept E.rank_of E.number_of s.entries.entries s.ranks.entries };
}

impl<E: Ranked> Numbered<E> {
    /// A store without entries, which takes no memory.
    pub fn empty(alloc: Global) -> Self
        ensures { result ≡ [] }
    {
        Numbered {
            entries: BTreeMap::new(alloc),
            ranks: BTreeMap::new(alloc),
        }
    }

    /// Adds an entry whose number is held by none.
    pub fn put(&mut self, entry: E) -> Result<(), Memory>
        requires { find (has E.number_of (E.number_of entry)) self.old ≡ None }
        ensures ok { OnOk result (self.new ≡ insert_in E.rank_of E.number_of entry self.old) }
        ensures err { OnErr result (self.new ≡ self.old) }
        ensures apart { AreApart E.number_of self.old }
    {
        let (rank, number) = (entry.rank(), entry.number());
        self.ranks.insert(number, rank)?;
        match self.entries.insert((rank, number), entry) {
            Ok(_) => Ok(()),
            Err(_) => {
                self.ranks.remove(&number);
                return Err(Memory);
            }
        }
    }

    /// The entry that has a number.
    pub fn get(&self, number: u64) -> Option<&E>
        ensures { option_copied result ≡ find (has E.number_of number) self.now }
    {
        let rank = self.ranks.get(&number)?;
        self.entries.get(&(*rank, number))
    }

    /// Takes out the entry that has a number.
    pub fn remove(&mut self, number: u64) -> Option<E>
        ensures value { result ≡ find (has E.number_of number) self.old }
        ensures left { self.new ≡ without E.number_of number self.old }
        ensures apart { AreApart E.number_of self.old }
    {
        let rank = self.ranks.remove(&number)?;
        self.entries.remove(&(rank, number))
    }

    /// Takes out the least entry by rank and number, if its rank is at most the limit.
    pub fn take_due(&mut self, limit: u64) -> Option<E>
        ensures least { result ≡ find (is_due E.rank_of limit) self.old }
        ensures left { Leaves E.number_of self.old result self.new }
        ensures apart { AreApart E.number_of self.old }
    {
        let (rank, number) = self.first()?;
        if rank > limit {
            return None;
        }
        self.remove(number)
    }

    /// The rank and number of the least entry.
    pub fn first(&self) -> Option<(u64, u64)>
        ensures first { result ≡ option_map (key_of E.rank_of E.number_of) (slice_get self.now 0) }
        ensures ordered { IsInOrder E.rank_of E.number_of self.now }
        ensures apart { AreApart E.number_of self.now }
    {
        let (key, _) = self.entries.first_key_value()?;
        Some(*key)
    }

    /// The entries stand in order, and no two have the same number. Does nothing.
    pub fn order(&self)
        ensures ordered { IsInOrder E.rank_of E.number_of self.now }
        ensures apart { AreApart E.number_of self.now }
    {
        let _ = &self.entries;
    }

    /// How many entries are held.
    pub fn len(&self) -> usize
        ensures { result ≡ length self.now }
    {
        self.entries.len()
    }

    /// The entries by reference, in order.
    pub fn entries(&self) -> Entries<'_, E>
        ensures { result ≡ self.now }
    {
        Entries {
            inner: self.entries.values(),
        }
    }
}

/// The entries of a store by reference, in order.
#[derive(Drop)]
pub struct Entries<'a, E> {
    inner: btree_map::Values<'a, (u64, u64), E>,
}

impl<'a, E> Model for Entries<'a, E> {
    ghost use Rattle.std.specs.Prelude.{List};

    ghost Value = { List E };

    ghost view = { λ e. e.inner };
}

impl<'a, E> Iterator for Entries<'a, E> {
    ghost use Rattle.std.specs.Iterator.{YieldsFirstRef, item_count};

    type Item = &'a E;

    ghost next_gives = { YieldsFirstRef (λ e. e) };

    ghost remaining = { item_count (λ e. e) };

    fn next(&mut self) -> Option<&'a E> {
        self.inner.next()
    }
}
