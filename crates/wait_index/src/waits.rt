// Waits in order of number.
ghost use Rattle.std.specs.Prelude.{◌≡◌, ◌≤◌, ◌+◌, [], find, None, OnOk, OnErr, IfOk};
ghost use Rattle.lists.specs.Entries.{has, without};
ghost use Rattle.kinds.specs.Stores.{wait_number, wait_run, wait_condition, insert_wait, woken};
ghost use Rattle.kinds.specs.Stores.{AreBucketsRight};
ghost use Rattle.matching.specs.Met.{asked_count};

use kinds::{Event, Numbers, PathMatcher, Steps, Wait};
use lists::Memory;
use matching::Index;
use ordered::Entries;
use std::alloc::Global;
use std::marker::Model;
use std::sync::ledger::Ledger;

/// What runs wait for, each wait with a number of its own. Contracts see the list of waits in order of
/// number.
#[derive(Drop)]
pub struct WaitIndex {
    waits: Index<Wait>,
}

impl Model for WaitIndex {
    ghost use Rattle.std.specs.Prelude.{List};
    ghost use Rattle.kinds.specs.declared.store.Wait.{Wait};

    ghost Value = { List Wait };

    ghost view = { λ w. w.waits };
}

impl WaitIndex {
    /// An index without waits, which takes no memory.
    pub fn empty(alloc: Global) -> Self
        ensures { result ≡ [] }
    {
        WaitIndex {
            waits: Index::empty(alloc),
        }
    }

    /// Adds a wait whose number is held by none.
    pub fn add(&mut self, wait: Wait) -> Result<(), Memory>
        requires new { find (has wait_number (wait_number wait)) self.old ≡ None }
        ensures ok { OnOk result (self.new ≡ insert_wait wait self.old) }
        ensures err { OnErr result (self.new ≡ self.old) }
    {
        self.waits.add(wait)
    }

    /// Drops the waits of a run. Looks at these alone.
    pub fn remove_run(&mut self, run: u64)
        ensures { self.new ≡ without wait_run run self.old }
    {
        self.waits.drop_run(run);
    }

    /// Drops the wait that has a number, if there is one.
    pub fn remove(&mut self, number: u64)
        ensures { self.new ≡ without wait_number number self.old }
    {
        self.waits.drop_number(number);
    }

    /// The numbers of all waits of the event's name whose condition is absent or true, in order. The
    /// caller owes that no bucket hides a wait whose condition is true of the event. Evaluated are at
    /// most the waits of the event's bucket and the waits of its name without one.
    pub fn matches<M: PathMatcher, L: Ledger>(
        &self,
        event: &Event,
        matcher: &M,
        steps: &mut Steps<L>,
    ) -> Result<Numbers, Memory>
        requires right { AreBucketsRight wait_condition (M.is_true matcher.now) (M.value_of matcher.now)
            event.now self.now }
        ensures woken { IfOk result (λ ns. ns ≡ woken (M.is_true matcher.now) event.now self.now) }
        ensures asked { steps.new ≤ steps.old
            + asked_count wait_condition (M.value_of matcher.now) event.now self.now }
    {
        self.waits.matches(event, matcher, steps)
    }

    /// The waits by reference, in order of number.
    pub fn entries(&self) -> Entries<'_, Wait>
        ensures { result ≡ self.now }
    {
        self.waits.entries()
    }
}
