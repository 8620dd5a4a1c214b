// Steps that wait for events.
ghost use Rattle.std.specs.Prelude.{◌≡◌, ◌<◌, ◌≤◌, ◌+◌, ◌++◌, ◌∷◌, [], find, map, OnOk, OnErr, IfOk};
ghost use Rattle.std.specs.Option.{option_map, option_copied};
ghost use Rattle.std.specs.List.{AllByRecursion};
ghost use Rattle.lists.specs.Entries.{has, without, AreApart};
ghost use Rattle.kinds.specs.Stores.{wait_number, wait_condition, woken, AreBucketsRight};
ghost use Rattle.matching.specs.Met.{asked_count};
ghost use Rattle.timers.specs.Dues.{as_due, least_due};
ghost use Rattle.awaited.specs.Entries.{wait_of, wait_step, waiting_number, waiting_run, waiting_due};
ghost use Rattle.awaited.specs.Beside.{waiting_with};

use crate::entries::WaitStep;
use crate::timed::TimedList;
use kinds::{Due, Event, Numbers, PathMatcher, StepHash, Steps, Wait};
use lists::Memory;
use ordered::Entries;
use std::alloc::Global;
use std::marker::Model;
use std::sync::ledger::Ledger;
use wait_index::WaitIndex;

/// The steps that wait for events, each wait with a number of its own. Contracts see the list of waits with
/// the names of their steps, in order of number.
#[derive(Drop)]
pub struct Waits {
    waits: WaitIndex,
    steps: TimedList<WaitStep>,
}

impl Model for Waits {
    ghost use Rattle.std.specs.Prelude.{List};
    ghost use Rattle.awaited.specs.Entries.{Waiting};
    ghost use Rattle.awaited.specs.Beside.{beside, AreBeside};

    ghost Value = { List Waiting };

    ghost view = { λ w. beside w.waits w.steps };

    ghost invariant = { λ w. AreBeside w.waits w.steps };
}

impl Waits {
    /// No waits, which takes no memory.
    pub fn empty(alloc: Global) -> Self
        ensures { result ≡ [] }
    {
        Waits {
            waits: WaitIndex::empty(alloc),
            steps: TimedList::empty(alloc),
        }
    }

    /// Adds a wait, whose number is above all, of the step of this name.
    pub fn add(&mut self, wait: Wait, hash: StepHash) -> Result<(), Memory>
        requires below { AllByRecursion (λ e. waiting_number e < wait_number wait) self.old }
        ensures ok { OnOk result (self.new ≡ self.old ++ waiting_with wait hash ∷ []) }
        ensures err { OnErr result (self.new ≡ self.old) }
    {
        let number = wait.number;
        let step = WaitStep {
            number,
            run: wait.run,
            hash,
            due: wait.due,
        };
        self.steps.add(step)?;
        match self.waits.add(wait) {
            Ok(()) => Ok(()),
            Err(_) => {
                self.steps.remove(number);
                return Err(Memory);
            }
        }
    }

    /// The step of the wait that has a number.
    pub fn get(&self, number: u64) -> Option<&WaitStep>
        ensures { option_copied result
            ≡ option_map wait_step (find (has waiting_number number) self.now) }
    {
        self.steps.get(number)
    }

    /// The wait that has a number is over. Its step is the answer.
    pub fn remove(&mut self, number: u64) -> Option<WaitStep>
        ensures value { result ≡ option_map wait_step (find (has waiting_number number) self.old) }
        ensures left { self.new ≡ without waiting_number number self.old }
    {
        self.waits.remove(number);
        self.steps.remove(number)
    }

    /// Drops the waits of a run. Looks at these alone.
    pub fn drop_run(&mut self, run: u64)
        ensures { self.new ≡ without waiting_run run self.old }
    {
        self.waits.remove_run(run);
        self.steps.drop_run(run);
    }

    /// The least due, with the wait's number and run; of those that tie the one of the least number.
    pub fn first(&self) -> Option<Due>
        ensures least { result ≡ option_map (as_due waiting_number waiting_run)
            (least_due waiting_due waiting_number self.now) }
        ensures apart { AreApart waiting_number self.now }
    {
        self.steps.first()
    }

    /// The numbers of all waits of the event's name whose condition is absent or true, in order. The
    /// caller owes that no bucket hides a wait whose condition is true of the event. Evaluated are at
    /// most the waits of the event's bucket and the waits of its name without one.
    pub fn matches<M: PathMatcher, L: Ledger>(
        &self,
        event: &Event,
        matcher: &M,
        steps: &mut Steps<L>,
    ) -> Result<Numbers, Memory>
        requires right { AreBucketsRight wait_condition (M.is_true matcher.now) (M.value_of matcher.now)
            event.now (map wait_of self.now) }
        ensures woken { IfOk result (λ ns. ns
            ≡ woken (M.is_true matcher.now) event.now (map wait_of self.now)) }
        ensures asked { steps.new ≤ steps.old
            + asked_count wait_condition (M.value_of matcher.now) event.now (map wait_of self.now) }
    {
        self.waits.matches(event, matcher, steps)
    }

    /// The waits by reference, in order of number.
    pub fn waits(&self) -> Entries<'_, Wait>
        ensures { result ≡ map wait_of self.now }
    {
        self.waits.entries()
    }

    /// The steps of the waits by reference, in order of number.
    pub fn steps(&self) -> Entries<'_, WaitStep>
        ensures { result ≡ map wait_step self.now }
    {
        self.steps.entries()
    }
}
