// Sets of numbers.
ghost use Rattle.std.specs.Prelude.{◌≡◌, [], OnOk};
ghost use Rattle.std.specs.List.{slice_get};
ghost use Rattle.machine.specs.Numbers.{AreJoined, IsJoined, IsJoinedBy, IsRest};

use lists::Memory;
use std::alloc::Global;
use std::collections::BTreeSet;
use std::marker::Model;

/// A set of numbers. Contracts see the numbers in order.
#[derive(Drop)]
pub(crate) struct NumberSet {
    numbers: BTreeSet<u64>,
}

impl Model for NumberSet {
    ghost use Rattle.std.specs.Prelude.{List, ℕ};

    ghost Value = { List ℕ };

    ghost view = { λ s. s.numbers.keys };
}

impl NumberSet {
    /// No numbers, which takes no memory.
    pub(crate) fn empty(alloc: Global) -> Self
        ensures { result ≡ [] }
    {
        NumberSet {
            numbers: BTreeSet::new(alloc),
        }
    }

    pub(crate) fn insert(&mut self, number: u64) -> Result<(), Memory>
        ensures { OnOk result (IsJoined number self.old self.new) }
    {
        self.numbers.insert(number)?;
        Ok(())
    }

    pub(crate) fn insert_some(&mut self, number: Option<u64>) -> Result<(), Memory>
        ensures { OnOk result (IsJoinedBy number self.old self.new) }
    {
        match number {
            Some(number) => self.insert(number),
            None => Ok(()),
        }
    }

    pub(crate) fn insert_all(&mut self, numbers: &[u64]) -> Result<(), Memory>
        ensures { OnOk result (AreJoined numbers.now self.old self.new) }
    {
        for number in numbers {
            self.insert(*number)?;
        }
        Ok(())
    }

    /// The least.
    pub(crate) fn first(&self) -> Option<u64>
        ensures { result ≡ slice_get self.now 0 }
    {
        self.numbers.first().copied()
    }

    /// Takes out the least.
    pub(crate) fn pop_first(&mut self) -> Option<u64>
        ensures { IsRest result self.old self.new }
    {
        self.numbers.pop_first()
    }
}
