// Runs in order of number, with indexes beside them.
ghost use Rattle.std.specs.Prelude.{◌≡◌, [], map, filter, length, None, true, false, cond, IfOk, OnErr};
ghost use Rattle.std.specs.List.{list_any};
ghost use Rattle.std.specs.Option.{option_copied};
ghost use Rattle.lists.specs.Entries.{AreApart, has, without, insert_by};
ghost use Rattle.runs.specs.Runs.{run_number, run_at, bytes_of_results, names_event, has_version};
ghost use Rattle.runs.specs.Changes.{changed, want, called, record_in, with_plan, with_pending};
ghost use Rattle.runs.specs.Changes.{naming_in, if_new, is_pending_in, keep_in, plan_in, pend_in};

use crate::boxed::BoxedRun;
use crate::counted::Counted;
use crate::map::{call_at, find_at, keep_at, pend_at, plan_at, put_at, take_at, wake_at, want_at};
use crate::mentions::Mentions;
use crate::{Naming, Run};
use kinds::{Numbers, Pending, StepHash};
use lists::{Bytes, Memory};
use std::alloc::Global;
use std::collections::{BTreeMap, btree_map};
use std::marker::Model;

/// Runs in order of number, found by number and by event, and counted by version.
#[derive(Drop)]
pub(crate) struct RunList {
    alloc: Global,
    runs: BTreeMap<u64, BoxedRun>,
    /// The bytes of the results of all.
    bytes: u64,
    events: Mentions,
    versions: Counted,
}

impl Model for RunList {
    ghost use Rattle.std.specs.Prelude.{List};
    ghost use Rattle.std.specs.BTreeMap.{values};
    ghost use Rattle.runs.specs.Runs.{Run};
    ghost use Rattle.runs.specs.Indexes.{IsIndexed};

    ghost Value = { List Run };

    ghost view = { λ l. values l.runs };

    ghost invariant = { λ l. IsIndexed l.runs.entries l.bytes l.events l.versions };
}

impl RunList {
    /// No runs, which takes no memory.
    pub(crate) fn empty(alloc: Global) -> Self
        ensures { result ≡ [] }
    {
        RunList {
            alloc,
            runs: BTreeMap::new(alloc),
            bytes: 0,
            events: Mentions::empty(alloc),
            versions: Counted::empty(alloc),
        }
    }

    /// Adds a run whose number is held by none. Without memory the list is gone.
    pub(crate) fn put(self, run: Run) -> Result<RunList, Memory>
        requires { run_at run.number self ≡ None }
        ensures { IfOk result (λ list. list ≡ insert_by run_number run self) }
    {
        let RunList {
            alloc,
            mut runs,
            bytes,
            mut events,
            mut versions,
        } = self;
        let number = run.number();
        let bytes = bytes.checked_add(run.bytes()).ok_or(Memory)?;
        let named = run.events();
        events.add_all(named, number)?;
        versions.add(run.version())?;
        put_at(&mut runs, alloc, number, run)?;
        Ok(RunList {
            alloc,
            runs,
            bytes,
            events,
            versions,
        })
    }

    /// Takes out the run that has a number.
    pub(crate) fn remove(&mut self, number: u64) -> Option<Run>
        ensures value { result ≡ run_at number self.old }
        ensures left { self.new ≡ without run_number number self.old }
        ensures apart { AreApart run_number self.old }
    {
        let run = take_at(&mut self.runs, number)?;
        self.bytes -= run.bytes();
        self.events.remove_all(run.events(), number);
        self.versions.remove(run.version());
        Some(run)
    }

    /// The run that has a number.
    pub(crate) fn get(&self, number: u64) -> Option<&Run>
        ensures { option_copied result ≡ run_at number self.now }
    {
        find_at(&self.runs, number)
    }

    pub(crate) fn len(&self) -> usize
        ensures { result ≡ length self.now }
    {
        self.runs.len()
    }

    /// The bytes of the results of all.
    pub(crate) fn bytes(&self) -> u64
        ensures { result ≡ bytes_of_results self.now }
    {
        self.bytes
    }

    /// Whether a run has the event.
    pub(crate) fn names_event(&self, event: u64) -> bool
        ensures { result ≡ list_any (names_event event) self.now }
    {
        self.events.any(event)
    }

    /// Whether a run is of the function version.
    pub(crate) fn names_version(&self, version: u64) -> bool
        ensures { result ≡ list_any (has_version version) self.now }
    {
        self.versions.any(version)
    }

    /// The runs that have the event, by number.
    pub(crate) fn of_event(&self, event: u64) -> Result<Numbers, Memory>
        ensures { IfOk result (λ ns. ns ≡ map run_number (filter (names_event event) self.now)) }
    {
        self.events.numbers(self.alloc, event)
    }

    /// The runs by reference, in order of number.
    pub(crate) fn entries(&self) -> Entries<'_>
        ensures { result ≡ self.now }
    {
        Entries {
            inner: self.runs.values(),
        }
    }

    pub(crate) fn want(&mut self, number: u64)
        ensures { self.new ≡ changed number want self.old }
    {
        want_at(&mut self.runs, number);
    }

    pub(crate) fn call(&mut self, number: u64, target: &[u8])
        ensures { self.new ≡ changed number (called target.now) self.old }
    {
        call_at(&mut self.runs, number, target);
    }

    /// A step of a run reports its result.
    pub(crate) fn keep(
        &mut self,
        number: u64,
        hash: &StepHash,
        text: Bytes,
    ) -> Result<Naming, Memory>
        ensures named { IfOk result (λ n.
            n ≡ naming_in (keep_in hash.now text) (run_at number self.old)) }
        ensures now { IfOk result (λ n.
            self.new ≡ if_new n (changed number (record_in hash.now text) self.old) self.old) }
        ensures err { OnErr result (self.new ≡ self.old) }
    {
        let Some(run) = find_at(&self.runs, number) else {
            return Ok(Naming::Known);
        };
        let text = run.fit(text)?;
        let bytes = self.bytes.checked_add(text.len() as u64).ok_or(Memory)?;
        let naming = keep_at(&mut self.runs, number, hash, text)?;
        match naming {
            Naming::New => {
                self.bytes = bytes;
                Ok(Naming::New)
            }
            Naming::Known => Ok(Naming::Known),
            Naming::Full => Ok(Naming::Full),
        }
    }

    /// What a step of a run waits for has come.
    pub(crate) fn wake(&mut self, number: u64, hash: &StepHash, text: Bytes) -> Result<bool, Memory>
        ensures woken { IfOk result (λ woken. woken ≡ is_pending_in hash.now (run_at number self.old)) }
        ensures now { IfOk result (λ woken.
            self.new ≡ cond woken (changed number (record_in hash.now text) self.old) self.old) }
        ensures err { OnErr result (self.new ≡ self.old) }
    {
        let Some(run) = find_at(&self.runs, number) else {
            return Ok(false);
        };
        if !run.is_pending(hash) {
            return Ok(false);
        }
        let text = run.fit(text)?;
        let bytes = self.bytes.checked_add(text.len() as u64).ok_or(Memory)?;
        wake_at(&mut self.runs, number, hash, text)?;
        self.bytes = bytes;
        Ok(true)
    }

    /// A step of a run is to run by a call of its own.
    pub(crate) fn plan(&mut self, number: u64, hash: &StepHash) -> Result<Naming, Memory>
        ensures named { IfOk result (λ n. n ≡ naming_in (plan_in hash.now) (run_at number self.old)) }
        ensures now { IfOk result (λ n.
            self.new ≡ if_new n (changed number (with_plan hash.now) self.old) self.old) }
        ensures err { OnErr result (self.new ≡ self.old) }
    {
        plan_at(&mut self.runs, number, hash)
    }

    /// A step of a run waits.
    pub(crate) fn pend(
        &mut self,
        number: u64,
        hash: &StepHash,
        kind: Pending,
    ) -> Result<Naming, Memory>
        ensures named { IfOk result (λ n.
            n ≡ naming_in (pend_in hash.now kind) (run_at number self.old)) }
        ensures now { IfOk result (λ n.
            self.new ≡ if_new n (changed number (with_pending hash.now kind) self.old) self.old) }
        ensures err { OnErr result (self.new ≡ self.old) }
    {
        pend_at(&mut self.runs, number, hash, kind)
    }
}

/// Runs by reference, in order of number.
#[derive(Drop)]
pub struct Entries<'a> {
    inner: btree_map::Values<'a, u64, BoxedRun>,
}

impl<'a> Model for Entries<'a> {
    ghost use Rattle.std.specs.Prelude.{List};
    ghost use Rattle.runs.specs.Runs.{Run};

    ghost Value = { List Run };

    ghost view = { λ e. e.inner };
}

impl<'a> Iterator for Entries<'a> {
    ghost use Rattle.std.specs.Iterator.{YieldsFirstRef, item_count};

    type Item = &'a Run;

    ghost next_gives = { YieldsFirstRef (λ e. e) };

    ghost remaining = { item_count (λ e. e) };

    fn next(&mut self) -> Option<&'a Run> {
        match self.inner.next() {
            Some(run) => Some(run.run()),
            None => None,
        }
    }
}
