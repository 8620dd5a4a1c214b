// Steps that sleep.
ghost use Rattle.std.specs.Prelude.{◌≡◌, ◌<◌, ◌++◌, ◌∷◌, [], find, OnOk, OnErr};
ghost use Rattle.std.specs.Option.{option_map, option_copied};
ghost use Rattle.std.specs.List.{AllByRecursion};
ghost use Rattle.lists.specs.Entries.{has, without, AreApart};
ghost use Rattle.timers.specs.Dues.{as_due, least_due};
ghost use Rattle.awaited.specs.Entries.{sleep_number, sleep_run, sleep_due};

use crate::entries::Sleep;
use crate::timed::TimedList;
use kinds::Due;
use lists::Memory;
use ordered::Entries;
use std::alloc::Global;
use std::marker::Model;

/// The steps that sleep, each sleep with a number of its own. Contracts see the list of sleeps in order of
/// number.
#[derive(Drop)]
pub struct Sleeps {
    sleeps: TimedList<Sleep>,
}

impl Model for Sleeps {
    ghost use Rattle.std.specs.Prelude.{List};
    ghost use Rattle.awaited.specs.declared.entries.Sleep.{Sleep};

    ghost Value = { List Sleep };

    ghost view = { λ s. s.sleeps };
}

impl Sleeps {
    /// No sleeps, which takes no memory.
    pub fn empty(alloc: Global) -> Self
        ensures { result ≡ [] }
    {
        Sleeps {
            sleeps: TimedList::empty(alloc),
        }
    }

    /// Adds a sleep whose number is above all.
    pub fn add(&mut self, sleep: Sleep) -> Result<(), Memory>
        requires below { AllByRecursion (λ e. sleep_number e < sleep_number sleep) self.old }
        ensures ok { OnOk result (self.new ≡ self.old ++ sleep ∷ []) }
        ensures err { OnErr result (self.new ≡ self.old) }
    {
        self.sleeps.add(sleep)
    }

    /// The sleep that has a number.
    pub fn get(&self, number: u64) -> Option<&Sleep>
        ensures { option_copied result ≡ find (has sleep_number number) self.now }
    {
        self.sleeps.get(number)
    }

    /// Takes out the sleep that has a number.
    pub fn remove(&mut self, number: u64) -> Option<Sleep>
        ensures value { result ≡ find (has sleep_number number) self.old }
        ensures left { self.new ≡ without sleep_number number self.old }
    {
        self.sleeps.remove(number)
    }

    /// Drops the sleeps of a run. Looks at these alone.
    pub fn drop_run(&mut self, run: u64)
        ensures { self.new ≡ without sleep_run run self.old }
    {
        self.sleeps.drop_run(run);
    }

    /// The least due, with the sleep's number and run; of those that tie the one of the least number.
    pub fn first(&self) -> Option<Due>
        ensures least { result
            ≡ option_map (as_due sleep_number sleep_run) (least_due sleep_due sleep_number self.now) }
        ensures apart { AreApart sleep_number self.now }
    {
        self.sleeps.first()
    }

    /// The sleeps by reference, in order of number.
    pub fn entries(&self) -> Entries<'_, Sleep>
        ensures { result ≡ self.now }
    {
        self.sleeps.entries()
    }
}
