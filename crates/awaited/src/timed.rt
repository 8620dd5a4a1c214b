// Entries of runs, each of which may have a due.
ghost use Rattle.std.specs.Prelude.{◌≡◌, ◌<◌, ◌++◌, ◌∷◌, [], ℕ, Option, find, OnOk, OnErr, IfSome};
ghost use Rattle.std.specs.Option.{option_map, option_copied, IfNone};
ghost use Rattle.std.specs.List.{AllByRecursion};
ghost use Rattle.lists.specs.Entries.{has, without, AreApart};
ghost use Rattle.ordered.specs.Indexes.{IsTakenOf};
ghost use Rattle.timers.specs.Dues.{as_due, least_due};

use crate::dues::{first_of, put_due};
use kinds::Due;
use lists::Memory;
use ordered::{Entries, OfRun, Ordered};
use std::alloc::Global;
use std::marker::Model;
use timers::Timers;

/// An entry of a run that may have a due, in milliseconds since 1970. It stands by number alone.
pub trait Timed: OfRun {
    ghost due_of: { Self → Option ℕ };

    fn due(&self) -> Option<u64>
        ensures { result ≡ due_of self.now };

    ghost by_number: { (e : Self) → Self.rank_of e ≡ 0 };
}

/// Entries of runs, each with a number of its own, and with a due or none. Contracts see the list of
/// entries in order of number.
#[derive(Drop)]
pub struct TimedList<E: Timed> {
    entries: Ordered<E>,
    dues: Timers,
}

impl<E: Timed> Model for TimedList<E> {
    ghost use Rattle.std.specs.Prelude.{List, ◌≡◌};
    ghost use Rattle.timers.specs.Dues.{dues_of};

    ghost Value = { List E };

    ghost view = { λ l. l.entries };

    ghost invariant = { λ l. l.dues ≡ dues_of E.due_of E.number_of E.run_of l.entries };
}

impl<E: Timed> TimedList<E> {
    /// A list without entries, which takes no memory.
    pub fn empty(alloc: Global) -> Self
        ensures { result ≡ [] }
    {
        TimedList {
            entries: Ordered::empty(alloc),
            dues: Timers::empty(alloc),
        }
    }

    /// Adds an entry whose number is above all.
    pub fn add(&mut self, entry: E) -> Result<(), Memory>
        requires below { AllByRecursion (λ e. E.number_of e < E.number_of entry) self.old }
        ensures ok { OnOk result (self.new ≡ self.old ++ entry ∷ []) }
        ensures err { OnErr result (self.new ≡ self.old) }
    {
        let number = entry.number();
        put_due(&mut self.dues, entry.due(), number, entry.run())?;
        match self.entries.put(entry) {
            Ok(()) => Ok(()),
            Err(_) => {
                self.dues.drop_number(number);
                return Err(Memory);
            }
        }
    }

    /// The entry that has a number.
    pub fn get(&self, number: u64) -> Option<&E>
        ensures { option_copied result ≡ find (has E.number_of number) self.now }
    {
        self.entries.get(number)
    }

    /// Takes out the entry that has a number.
    pub fn remove(&mut self, number: u64) -> Option<E>
        ensures value { result ≡ find (has E.number_of number) self.old }
        ensures left { self.new ≡ without E.number_of number self.old }
    {
        self.dues.drop_number(number);
        self.entries.remove(number)
    }

    /// Takes out an entry of a run. Looks at the run's entries alone.
    pub fn take_of(&mut self, run: u64) -> Option<E>
        ensures one { IfSome result (λ e. IsTakenOf E.run_of E.number_of run self.old e self.new) }
        ensures same { IfNone result (self.new ≡ self.old) }
        ensures none { IfNone result (find (has E.run_of run) self.old ≡ None) }
    {
        let entry = self.entries.take_of(run)?;
        self.dues.drop_number(entry.number());
        Some(entry)
    }

    /// Drops the entries of a run. Looks at these alone.
    pub fn drop_run(&mut self, run: u64)
        ensures { self.new ≡ without E.run_of run self.old }
    {
        self.dues.drop_run(run);
        self.entries.drop_run(run);
    }

    /// The least due of the entries that have one, with the entry's number and run; of those that tie
    /// the one of the least number.
    pub fn first(&self) -> Option<Due>
        ensures least { result
            ≡ option_map (as_due E.number_of E.run_of) (least_due E.due_of E.number_of self.now) }
        ensures apart { AreApart E.number_of self.now }
    {
        self.entries.order();
        first_of(&self.dues)
    }

    /// The entries by reference, in order of number.
    pub fn entries(&self) -> Entries<'_, E>
        ensures { result ≡ self.now }
    {
        self.entries.entries()
    }
}
