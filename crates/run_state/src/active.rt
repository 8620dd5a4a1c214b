// A run that has begun and isn't over.
ghost use Rattle.std.specs.Prelude.{◌≡◌, ◌≤◌, ◌+◌, ◌<◌, true, false, OnOk, OnErr, is_some, length};
ghost use Rattle.std.specs.Prelude.{nat_le};
ghost use Rattle.std.specs.Option.{option_map};
ghost use Rattle.kinds.specs.RunSteps.{no_steps, is_recorded, is_planned, is_pending, is_known};
ghost use Rattle.kinds.specs.RunSteps.{pending_of, result_of, names, most_names, record_step};
ghost use Rattle.kinds.specs.RunSteps.{plan_step, pend_step, keep_step, note_plan, note_pending};
ghost use Rattle.kinds.specs.RunSteps.{adds};
ghost use Rattle.run_state.specs.Named.{AreApart, has_place};
ghost use Rattle.run_state.specs.Noted.{Notes, Grow, steps_of};
ghost use Rattle.run_state.specs.declared.ended.Ended.TheVariants.{Completed, Failed, Cancelled};

use crate::{Ended, Entries};
use kinds::{Pending, StepEntry, StepHash};
use lists::{Bytes, Items, Memory};
use std::alloc::Global;
use std::collections::{BTreeMap, BTreeSet};
use std::marker::Model;

/// The most names that a run can have.
const MOST_NAMES: usize = 1_000;

/// A run that has begun and isn't over. Contracts see its recorded steps in the order of recording, and
/// its planned and its pending names; no name stands in two of these.
#[derive(Drop)]
pub struct Active {
    recorded: Items<StepEntry>,
    /// Where each recorded name stands.
    places: BTreeMap<StepHash, usize>,
    planned: BTreeSet<StepHash>,
    pending: BTreeMap<StepHash, Pending>,
}

/// What became of a name, and the run from then on.
#[derive(Drop)]
pub enum Noted {
    /// The name was new.
    New(Active),
    /// The name was known, and the run is as before.
    Known(Active),
    /// The name was new, the run has its 1,000 names and is as before.
    Full(Active),
    /// The name was new, there was no memory, and the run is as before.
    Memory(Active),
}

impl Model for Active {
    ghost use Rattle.kinds.specs.RunSteps.{RunSteps};
    ghost use Rattle.run_state.specs.Named.{IsNamed, steps_from};

    ghost Value = { RunSteps };

    ghost view = { λ a. steps_from a.recorded a.planned.keys a.pending.entries };

    ghost invariant = { λ a.
        IsNamed (steps_from a.recorded a.planned.keys a.pending.entries) a.places.entries };
}

impl Active {
    pub(crate) fn empty(alloc: Global) -> Self
        ensures { result ≡ no_steps }
    {
        Active {
            recorded: Items::new(alloc),
            places: BTreeMap::new(alloc),
            planned: BTreeSet::new(alloc),
            pending: BTreeMap::new(alloc),
        }
    }

    /// The result of a recorded step.
    pub fn result_of(&self, hash: &StepHash) -> Option<&[u8]>
        ensures { option_map (λ text. text.now) result ≡ result_of hash.now self.now }
    {
        let place = *self.places.get(hash)?;
        let entry = self.recorded.get(place)?;
        Some(entry.result.as_slice())
    }

    pub fn is_recorded(&self, hash: &StepHash) -> bool
        ensures { result ≡ is_recorded hash.now self.now }
    {
        self.places.contains_key(hash)
    }

    /// Whether a step is planned and not recorded.
    pub fn is_planned(&self, hash: &StepHash) -> bool
        ensures { result ≡ is_planned hash.now self.now }
    {
        self.planned.contains(hash)
    }

    /// What a pending step waits for.
    pub fn pending_of(&self, hash: &StepHash) -> Option<Pending>
        ensures { result ≡ pending_of hash.now self.now }
    {
        self.pending.get(hash).copied()
    }

    pub fn is_pending(&self, hash: &StepHash) -> bool
        ensures { result ≡ is_pending hash.now self.now }
    {
        self.pending.contains_key(hash)
    }

    /// Whether anything is pending.
    pub fn is_waiting(&self) -> bool
        ensures { result ≡ nat_le 1 (length self.now.pending) }
    {
        !self.pending.is_empty()
    }

    /// How many names the run has.
    pub fn names(&self) -> usize
        ensures count { result ≡ names self.now }
        // each name once, and 1,000 of them at most
        ensures apart { AreApart self.now }
    {
        self.recorded.len() + self.planned.len() + self.pending.len()
    }

    /// The recorded steps in the order of recording, as a call sends them.
    pub fn steps(&self) -> &[StepEntry]
        ensures { result.now ≡ self.now.recorded }
    {
        self.recorded.as_slice()
    }

    /// The recorded steps by reference, in the order of recording.
    pub fn entries(&self) -> Entries<'_>
        ensures { result ≡ self.now.recorded }
    {
        Entries::new(self.recorded.as_slice())
    }

    /// A step reports its result. A planned name is new here.
    pub fn keep(mut self, hash: &StepHash, text: Bytes) -> Noted
        ensures noted { Notes (keep_step hash.now text self) self result }
        ensures grow { Grow self (steps_of result) }
    {
        if self.is_recorded(hash) || self.is_pending(hash) {
            return Noted::Known(self);
        }
        if !self.is_planned(hash) && self.names() >= MOST_NAMES {
            return Noted::Full(self);
        }
        self.record(hash, text)
    }

    /// A step is to run by a call of its own.
    pub fn plan(mut self, hash: &StepHash) -> Noted
        ensures noted { Notes (note_plan hash.now self) self result }
        ensures grow { Grow self (steps_of result) }
    {
        if self.is_known(hash) {
            return Noted::Known(self);
        }
        if self.names() >= MOST_NAMES {
            return Noted::Full(self);
        }
        match self.add_planned(hash) {
            Ok(()) => Noted::New(self),
            Err(Memory) => Noted::Memory(self),
        }
    }

    /// A step waits.
    pub fn pend(mut self, hash: &StepHash, kind: Pending) -> Noted
        ensures noted { Notes (note_pending hash.now kind self) self result }
        ensures grow { Grow self (steps_of result) }
    {
        if self.is_known(hash) {
            return Noted::Known(self);
        }
        if self.names() >= MOST_NAMES {
            return Noted::Full(self);
        }
        match self.add_pending(hash, kind) {
            Ok(()) => Noted::New(self),
            Err(Memory) => Noted::Memory(self),
        }
    }

    /// What a pending step waits for has come. The answer is New or Memory.
    pub fn wake(self, hash: &StepHash, text: Bytes) -> Noted
        requires { is_pending hash.now self ≡ true }
        ensures noted { Notes (adds (record_step hash.now text self)) self result }
        ensures grow { Grow self (steps_of result) }
    {
        self.record(hash, text)
    }

    /// The run is completed.
    pub fn finish(self) -> Ended
        ensures { result ≡ Completed }
    {
        Ended::Completed
    }

    /// The run has failed.
    pub fn fail(self) -> Ended
        ensures { result ≡ Failed }
    {
        Ended::Failed
    }

    /// The run is cancelled.
    pub fn cancel(self) -> Ended
        ensures { result ≡ Cancelled }
    {
        Ended::Cancelled
    }

    fn is_known(&self, hash: &StepHash) -> bool
        ensures { result ≡ is_known hash.now self.now }
    {
        self.is_recorded(hash) || self.is_planned(hash) || self.is_pending(hash)
    }

    /// Records a result under a name that has none. A name that is neither planned nor pending needs
    /// room.
    fn record(mut self, hash: &StepHash, text: Bytes) -> Noted
        requires free { is_recorded hash.now self ≡ false }
        requires place { has_place hash.now self ≡ true }
        ensures noted { Notes (adds (record_step hash.now text self)) self result }
        ensures grow { Grow self (steps_of result) }
    {
        match self.add_recorded(hash, text) {
            Ok(()) => Noted::New(self),
            Err(Memory) => Noted::Memory(self),
        }
    }

    fn add_recorded(&mut self, hash: &StepHash, text: Bytes) -> Result<(), Memory>
        requires free { is_recorded hash.now self.old ≡ false }
        requires place { has_place hash.now self.old ≡ true }
        ensures ok { OnOk result (self.new ≡ record_step hash.now text self.old) }
        ensures err { OnErr result (self.new ≡ self.old) }
    {
        self.places.insert(*hash, self.recorded.len())?;
        let entry = StepEntry {
            hash: *hash,
            result: text,
        };
        match self.recorded.push(entry) {
            Ok(()) => {}
            Err(_) => {
                self.places.remove(hash);
                return Err(Memory);
            }
        }
        self.planned.remove(hash);
        self.pending.remove(hash);
        Ok(())
    }

    fn add_planned(&mut self, hash: &StepHash) -> Result<(), Memory>
        requires free { is_known hash.now self.old ≡ false }
        requires few { names self.old < most_names }
        ensures ok { OnOk result (self.new ≡ plan_step hash.now self.old) }
        ensures err { OnErr result (self.new ≡ self.old) }
    {
        self.planned.insert(*hash)?;
        Ok(())
    }

    fn add_pending(&mut self, hash: &StepHash, kind: Pending) -> Result<(), Memory>
        requires free { is_known hash.now self.old ≡ false }
        requires few { names self.old < most_names }
        ensures ok { OnOk result (self.new ≡ pend_step hash.now kind self.old) }
        ensures err { OnErr result (self.new ≡ self.old) }
    {
        self.pending.insert(*hash, kind)?;
        Ok(())
    }
}
