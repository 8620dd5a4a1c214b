// Steps that wait for the ends of runs.
ghost use Rattle.std.specs.Prelude.{◌≡◌, ◌<◌, ◌==◌, ◌&&◌, ◌++◌, ◌∷◌, [], bytes_eq, find, length, None, OnOk, OnErr};
ghost use Rattle.std.specs.Bool.{OnFalse, OnTrue};
ghost use Rattle.std.specs.Option.{option_map, option_copied};
ghost use Rattle.std.specs.List.{AllByRecursion};
ghost use Rattle.lists.specs.Entries.{has, without, AreApart};
ghost use Rattle.timers.specs.Dues.{as_due, least_due};
ghost use Rattle.awaited.specs.Entries.{invocation_number, invocation_run, invocation_due, is_invocation_of, without_invocation_of};
ghost use Rattle.awaited.specs.Beside.{HasNumberOf};

use crate::entries::Invocation;
use crate::timed::TimedList;
use kinds::{Due, Parent, StepHash};
use lists::Memory;
use ordered::Entries;
use std::alloc::Global;
use std::collections::BTreeSet;
use std::marker::Model;

/// The steps that wait for the ends of runs, each invocation with a number of its own, and with an end of
/// its own or none. Contracts see the list of invocations in order of number.
#[derive(Drop)]
pub struct Invocations {
    invocations: TimedList<Invocation>,
    steps: BTreeSet<((u64, StepHash), u64)>,
}

impl Model for Invocations {
    ghost use Rattle.std.specs.Prelude.{List};
    ghost use Rattle.ordered.specs.Indexes.{IsListed};
    ghost use Rattle.awaited.specs.Entries.{invocation_number};
    ghost use Rattle.awaited.specs.Beside.{step_cmp, step_of};
    ghost use Rattle.awaited.specs.declared.entries.Invocation.{Invocation};

    ghost Value = { List Invocation };

    ghost view = { λ i. i.invocations };

    ghost invariant = { λ i. IsListed step_cmp step_of invocation_number i.invocations i.steps.keys };
}

impl Invocations {
    /// No invocations, which takes no memory.
    pub fn empty(alloc: Global) -> Self
        ensures { result ≡ [] }
    {
        Invocations {
            invocations: TimedList::empty(alloc),
            steps: BTreeSet::new(alloc),
        }
    }

    /// Adds an invocation whose number is above all.
    pub fn add(&mut self, invocation: Invocation) -> Result<(), Memory>
        requires below { AllByRecursion
            (λ e. invocation_number e < invocation_number invocation) self.old }
        ensures ok { OnOk result (self.new ≡ self.old ++ invocation ∷ []) }
        ensures err { OnErr result (self.new ≡ self.old) }
    {
        let key = ((invocation.run, invocation.hash), invocation.number);
        self.steps.insert(key)?;
        match self.invocations.add(invocation) {
            Ok(()) => Ok(()),
            Err(_) => {
                self.steps.remove(&key);
                return Err(Memory);
            }
        }
    }

    /// The invocation that has a number.
    pub fn get(&self, number: u64) -> Option<&Invocation>
        ensures { option_copied result ≡ find (has invocation_number number) self.now }
    {
        self.invocations.get(number)
    }

    /// Takes out the invocation that has a number.
    pub fn remove(&mut self, number: u64) -> Option<Invocation>
        ensures value { result ≡ find (has invocation_number number) self.old }
        ensures left { self.new ≡ without invocation_number number self.old }
    {
        let invocation = self.invocations.remove(number)?;
        self.steps
            .remove(&((invocation.run, invocation.hash), number));
        Some(invocation)
    }

    /// Drops the invocations of a run. Looks at these alone.
    pub fn drop_run(&mut self, run: u64)
        ensures { self.new ≡ without invocation_run run self.old }
    {
        while self.drop_one(run) {}
    }

    /// Drops the invocations of a step. Looks at these alone.
    pub fn remove_of(&mut self, parent: &Parent)
        ensures { self.new ≡ without_invocation_of parent.now self.old }
    {
        while self.remove_one(parent) {}
    }

    // Drops an invocation of a run, and says whether there was one.
    fn drop_one(&mut self, run: u64) -> bool
        ensures rest { OnTrue result
            (without invocation_run run self.new ≡ without invocation_run run self.old) }
        ensures fewer { OnTrue result (length self.new < length self.old) }
        ensures same { OnFalse result (self.new ≡ self.old) }
        ensures none { OnFalse result (find (has invocation_run run) self.old ≡ None) }
    {
        match self.invocations.take_of(run) {
            Some(invocation) => {
                let key = ((invocation.run, invocation.hash), invocation.number);
                self.steps.remove(&key);
                true
            }
            None => false,
        }
    }

    // Drops an invocation of a step, and says whether there was one.
    fn remove_one(&mut self, parent: &Parent) -> bool
        ensures rest { OnTrue result
            (without_invocation_of parent.now self.new ≡ without_invocation_of parent.now self.old) }
        ensures fewer { OnTrue result (length self.new < length self.old) }
        ensures same { OnFalse result (self.new ≡ self.old) }
        ensures none { OnFalse result (find (is_invocation_of parent.now) self.old ≡ None) }
    {
        let Some(number) = self.number_of(parent) else {
            return false;
        };
        self.remove(number);
        true
    }

    // The number of an invocation of a step.
    fn number_of(&self, parent: &Parent) -> Option<u64>
        ensures found { HasNumberOf parent.now self.now result }
        ensures apart { AreApart invocation_number self.now }
    {
        let start = ((parent.run, parent.hash), 0);
        let Some(&(step, number)) = self.steps.range(start..).next() else {
            return None;
        };
        if is_step(&step, parent) {
            Some(number)
        } else {
            None
        }
    }

    /// The least due of the invocations that have one, with the invocation's number and run; of those that
    /// tie the one of the least number.
    pub fn first(&self) -> Option<Due>
        ensures least { result ≡ option_map (as_due invocation_number invocation_run)
            (least_due invocation_due invocation_number self.now) }
        ensures apart { AreApart invocation_number self.now }
    {
        self.invocations.first()
    }

    /// The invocations by reference, in order of number.
    pub fn entries(&self) -> Entries<'_, Invocation>
        ensures { result ≡ self.now }
    {
        self.invocations.entries()
    }
}

// Whether a step is the one of a parent.
fn is_step(step: &(u64, StepHash), parent: &Parent) -> bool
    ensures { result ≡ ((parent.now.run == step.now.0) && bytes_eq parent.now.hash step.now.1) }
{
    parent.run == step.0 && parent.hash == step.1
}
