// The public store of runs.
ghost use Rattle.std.specs.Prelude.{◌≡◌, ◌<◌, [], map, filter, length, cond, IfOk, OnOk, OnErr};
ghost use Rattle.std.specs.Prelude.{◌++◌, ◌∷◌};
ghost use Rattle.std.specs.List.{AllByRecursion};
ghost use Rattle.std.specs.Option.{option_copied};
ghost use Rattle.lists.specs.Entries.{AreApart, without};
ghost use Rattle.runs.specs.Runs.{no_runs, run_number, run_at, with_run, bytes_of_results, names_event};
ghost use Rattle.runs.specs.Names.{is_used, is_named, is_version_named};
ghost use Rattle.runs.specs.Changes.{changed, want, called, record_in, with_plan, with_pending};
ghost use Rattle.runs.specs.Changes.{naming_in, if_new, is_pending_in, keep_in, plan_in, pend_in};

use crate::list::{Entries, RunList};
use crate::{Naming, Run};
use kinds::{Numbers, Pending, StepHash};
use lists::{Bytes, Memory};
use std::alloc::Global;
use std::marker::Model;
use std::mem;

/// The runs that have not ended, and those that have and whose calls are open still. Contracts see the
/// two lists in order of number.
#[derive(Drop)]
pub struct Runs {
    alloc: Global,
    live: RunList,
    closing: RunList,
}

impl Model for Runs {
    ghost use Rattle.runs.specs.Runs.{RunLists, AreDisjoint};

    ghost Value = { RunLists };

    ghost view = { λ r. record { live = r.live; closing = r.closing } };

    ghost invariant = { λ r. AreDisjoint r.live r.closing };
}

impl Runs {
    /// No runs, which takes no memory.
    pub fn empty(alloc: Global) -> Self
        ensures { result ≡ no_runs }
    {
        Runs {
            alloc,
            live: RunList::empty(alloc),
            closing: RunList::empty(alloc),
        }
    }

    /// Adds a run that is made now: its number is above those of all runs that are here. Want of memory
    /// leaves no live run.
    pub fn add(&mut self, run: Run) -> Result<(), Memory>
        requires below { AllByRecursion (λ r. r.number < run.number) self.old.live }
        requires closing { AllByRecursion (λ r. r.number < run.number) self.old.closing }
        ensures live { OnOk result (self.new.live ≡ self.old.live ++ run ∷ []) }
        ensures closing { self.new.closing ≡ self.old.closing }
    {
        let before = mem::replace(&mut self.live, RunList::empty(self.alloc));
        let live = before.put(run)?;
        self.live = live;
        Ok(())
    }

    /// A run that has not ended.
    pub fn live(&self, number: u64) -> Option<&Run>
        ensures { option_copied result ≡ run_at number self.now.live }
    {
        self.live.get(number)
    }

    /// A run that has ended, and whose calls are open still.
    pub fn find_closing(&self, number: u64) -> Option<&Run>
        ensures { option_copied result ≡ run_at number self.now.closing }
    {
        self.closing.get(number)
    }

    /// How many have not ended.
    pub fn count(&self) -> u64
        ensures { result ≡ length self.now.live }
    {
        self.live.len() as u64
    }

    /// The bytes of the results of those that have not ended.
    pub fn results(&self) -> u64
        ensures { result ≡ bytes_of_results self.now.live }
    {
        self.live.bytes()
    }

    /// Whether a run that has not ended has the event.
    pub fn is_used(&self, event: u64) -> bool
        ensures { result ≡ is_used event self.now.live }
    {
        self.live.names_event(event)
    }

    /// Whether a run that is here has the event.
    pub fn is_named(&self, event: u64) -> bool
        ensures { result ≡ is_named event self.now }
    {
        self.live.names_event(event) || self.closing.names_event(event)
    }

    /// Whether a run that is here is of the function version.
    pub fn names_version(&self, version: u64) -> bool
        ensures { result ≡ is_version_named version self.now }
    {
        self.live.names_version(version) || self.closing.names_version(version)
    }

    /// The runs that have not ended and have the event, by number.
    pub fn of_event(&self, event: u64) -> Result<Numbers, Memory>
        ensures { IfOk result (λ ns. ns ≡ map run_number (filter (names_event event) self.now.live)) }
    {
        self.live.of_event(event)
    }

    /// The runs that have not ended by reference, in order of number.
    pub fn live_runs(&self) -> Entries<'_>
        ensures { result ≡ self.now.live }
    {
        self.live.entries()
    }

    /// The runs that have ended and whose calls are open still by reference, in order of number.
    pub fn closing_runs(&self) -> Entries<'_>
        ensures { result ≡ self.now.closing }
    {
        self.closing.entries()
    }

    /// A run is to find out what comes next, where it has not ended.
    pub fn want(&mut self, number: u64)
        ensures live { self.new.live ≡ changed number want self.old.live }
        ensures closing { self.new.closing ≡ self.old.closing }
    {
        self.live.want(number);
    }

    /// A call of a run is made, where it has not ended. With the target `step` the call finds out what
    /// comes next.
    pub fn call(&mut self, number: u64, target: &[u8])
        ensures live { self.new.live ≡ changed number (called target.now) self.old.live }
        ensures closing { self.new.closing ≡ self.old.closing }
    {
        self.live.call(number, target);
    }

    /// A step reports its result. One that would bring its run past 4 MiB is an error in its place. Want
    /// of memory changes nothing.
    pub fn keep(&mut self, number: u64, hash: &StepHash, text: Bytes) -> Result<Naming, Memory>
        ensures named { IfOk result (λ n.
            n ≡ naming_in (keep_in hash.now text) (run_at number self.old.live)) }
        ensures live { IfOk result (λ n. self.new.live
            ≡ if_new n (changed number (record_in hash.now text) self.old.live) self.old.live) }
        ensures closing { self.new.closing ≡ self.old.closing }
        ensures err { OnErr result (self.new ≡ self.old) }
    {
        self.live.keep(number, hash, text)
    }

    /// What a step waits for has come, and is its result. The answer says whether a run that has not
    /// ended waited for it. A result that would bring the run past 4 MiB is an error in its place. Want
    /// of memory changes nothing.
    pub fn wake(&mut self, number: u64, hash: &StepHash, text: Bytes) -> Result<bool, Memory>
        ensures woken { IfOk result (λ woken.
            woken ≡ is_pending_in hash.now (run_at number self.old.live)) }
        ensures live { IfOk result (λ woken. self.new.live
            ≡ cond woken (changed number (record_in hash.now text) self.old.live) self.old.live) }
        ensures closing { self.new.closing ≡ self.old.closing }
        ensures err { OnErr result (self.new ≡ self.old) }
    {
        self.live.wake(number, hash, text)
    }

    /// A step is to run by a call of its own. Want of memory changes nothing.
    pub fn plan(&mut self, number: u64, hash: &StepHash) -> Result<Naming, Memory>
        ensures named { IfOk result (λ n.
            n ≡ naming_in (plan_in hash.now) (run_at number self.old.live)) }
        ensures live { IfOk result (λ n.
            self.new.live ≡ if_new n (changed number (with_plan hash.now) self.old.live) self.old.live) }
        ensures closing { self.new.closing ≡ self.old.closing }
        ensures err { OnErr result (self.new ≡ self.old) }
    {
        self.live.plan(number, hash)
    }

    /// A step waits. Want of memory changes nothing.
    pub fn pend(&mut self, number: u64, hash: &StepHash, kind: Pending) -> Result<Naming, Memory>
        ensures named { IfOk result (λ n.
            n ≡ naming_in (pend_in hash.now kind) (run_at number self.old.live)) }
        ensures live { IfOk result (λ n. self.new.live
            ≡ if_new n (changed number (with_pending hash.now kind) self.old.live) self.old.live) }
        ensures closing { self.new.closing ≡ self.old.closing }
        ensures err { OnErr result (self.new ≡ self.old) }
    {
        self.live.pend(number, hash, kind)
    }

    /// A run ends, and is here until it is closed. Want of memory leaves no run that has ended.
    pub fn end(&mut self, number: u64) -> Result<(), Memory>
        ensures live { self.new.live ≡ without run_number number self.old.live }
        ensures closing { OnOk result
            (self.new.closing ≡ with_run (run_at number self.old.live) self.old.closing) }
    {
        let Some(run) = self.live.remove(number) else {
            return Ok(());
        };
        let before = mem::replace(&mut self.closing, RunList::empty(self.alloc));
        let closing = before.put(run)?;
        self.closing = closing;
        Ok(())
    }

    /// The calls of an ended run have ended too: it is here no more.
    pub fn close(&mut self, number: u64) -> Option<Run>
        ensures value { result ≡ run_at number self.old.closing }
        ensures live { self.new.live ≡ self.old.live }
        ensures closing { self.new.closing ≡ without run_number number self.old.closing }
        ensures apart { AreApart run_number self.old.closing }
    {
        self.closing.remove(number)
    }
}
