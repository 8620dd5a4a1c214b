// Which numbers a thing is mentioned by.
ghost use Rattle.std.specs.Prelude.{◌≡◌, ℕ, [], ◌∷◌, true, false, OnOk, IfOk};
ghost use Rattle.std.specs.Bool.{OnTrue, OnFalse};
ghost use Rattle.std.specs.List.Sorted.{IsStrictlySortedBy};
ghost use Rattle.lists.specs.Entries.{pair_cmp};
ghost use Rattle.runs.specs.Mentions.{mentions, numbers_of, IsJoined, IsParted};

use kinds::Numbers;
use lists::{Items, Memory};
use std::alloc::Global;
use std::collections::BTreeSet;
use std::marker::Model;

/// Things by number, each with the numbers of what mentions it. Contracts see the pairs in order.
#[derive(Drop)]
pub(crate) struct Mentions {
    pairs: BTreeSet<(u64, u64)>,
}

impl Model for Mentions {
    ghost use Rattle.std.specs.Prelude.{List, ℕ};

    ghost Value = { List (ℕ × ℕ) };

    ghost view = { λ m. m.pairs.keys };
}

// The numbers beside one thing.
fn gather(pairs: &BTreeSet<(u64, u64)>, alloc: Global, part: u64) -> Result<Numbers, Memory>
    ensures all { IfOk result (λ ns. ns ≡ numbers_of part pairs.now.keys) }
    ensures ordered { IsStrictlySortedBy pair_cmp pairs.now.keys }
{
    let mut numbers = Items::new(alloc);
    for pair in pairs.range((part, 0)..) {
        let (thing, number) = *pair;
        if thing != part {
            return Ok(numbers);
        }
        numbers.push(number)?;
    }
    Ok(numbers)
}

impl Mentions {
    pub(crate) fn empty(alloc: Global) -> Self
        ensures { result ≡ [] }
    {
        Mentions {
            pairs: BTreeSet::new(alloc),
        }
    }

    /// The number mentions the thing.
    pub(crate) fn add(&mut self, part: u64, number: u64) -> Result<(), Memory>
        ensures { OnOk result (IsJoined (part ∷ []) number self.old self.new) }
    {
        self.pairs.insert((part, number))?;
        Ok(())
    }

    /// The number mentions the thing no more.
    pub(crate) fn remove(&mut self, part: u64, number: u64)
        ensures { IsParted (part ∷ []) number self.old self.new }
    {
        self.pairs.remove(&(part, number));
    }

    /// The number mentions all these.
    pub(crate) fn add_all(&mut self, parts: &[u64], number: u64) -> Result<(), Memory>
        ensures { OnOk result (IsJoined parts.now number self.old self.new) }
    {
        for part in parts {
            self.add(*part, number)?;
        }
        Ok(())
    }

    /// The number mentions none of these any more.
    pub(crate) fn remove_all(&mut self, parts: &[u64], number: u64)
        ensures { IsParted parts.now number self.old self.new }
    {
        for part in parts {
            self.remove(*part, number);
        }
    }

    /// Whether a number mentions the thing.
    pub(crate) fn any(&self, part: u64) -> bool
        ensures some { OnTrue result ((n : ℕ) × (mentions self.now part n ≡ true)) }
        ensures none { OnFalse result ((n : ℕ) → mentions self.now part n ≡ false) }
    {
        let Some(&(found, _number)) = self.pairs.range((part, 0)..).next() else {
            return false;
        };
        if found != part {
            return false;
        }
        true
    }

    /// The numbers that mention the thing, in order.
    pub(crate) fn numbers(&self, alloc: Global, part: u64) -> Result<Numbers, Memory>
        ensures all { IfOk result (λ ns. ns ≡ numbers_of part self.now) }
        ensures ordered { IsStrictlySortedBy pair_cmp self.now }
    {
        gather(&self.pairs, alloc, part)
    }
}
