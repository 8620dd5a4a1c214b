// The steps of a run on the heap.
ghost use Rattle.std.specs.Prelude.{◌≡◌, true, IfOk, OnOk, OnErr, length, nat_le};
ghost use Rattle.std.specs.Option.{option_map};
ghost use Rattle.kinds.specs.RunSteps.{no_steps, is_recorded, is_pending, result_of, keep_step};
ghost use Rattle.kinds.specs.RunSteps.{note_plan, note_pending, record_step, plan_step, pend_step};
ghost use Rattle.runs.specs.Changes.{IsNoted};

use crate::{Naming, steps};
use kinds::{Pending, StepEntry, StepHash};
use lists::{Bytes, Memory};
use run_state::{Active, Fresh};
use std::alloc::Global;
use std::marker::Model;

/// The steps of a run, on the heap from the first name on: a run that has none takes a pointer for them.
/// Contracts see the steps.
#[derive(Drop)]
pub(crate) struct BoxedSteps {
    steps: Option<Box<Active>>,
}

impl Model for BoxedSteps {
    ghost use Rattle.kinds.specs.RunSteps.{RunSteps};
    ghost use Rattle.runs.specs.Boxed.{steps_in};

    ghost Value = { RunSteps };

    ghost view = { λ b. steps_in b.steps };
}

impl BoxedSteps {
    /// No steps, which takes no memory.
    pub(crate) fn empty() -> Self
        ensures { result ≡ no_steps }
    {
        BoxedSteps { steps: None }
    }

    /// The recorded steps in the order of recording.
    pub(crate) fn recorded(&self) -> &[StepEntry]
        ensures { result.now ≡ self.now.recorded }
    {
        match &self.steps {
            Some(steps) => steps.steps(),
            None => &[],
        }
    }

    /// The result of a recorded step.
    pub(crate) fn result_of(&self, hash: &StepHash) -> Option<&[u8]>
        ensures { option_map (λ text. text.now) result ≡ result_of hash.now self.now }
    {
        match &self.steps {
            Some(steps) => steps.result_of(hash),
            None => None,
        }
    }

    pub(crate) fn is_recorded(&self, hash: &StepHash) -> bool
        ensures { result ≡ is_recorded hash.now self.now }
    {
        match &self.steps {
            Some(steps) => steps.is_recorded(hash),
            None => false,
        }
    }

    pub(crate) fn is_pending(&self, hash: &StepHash) -> bool
        ensures { result ≡ is_pending hash.now self.now }
    {
        match &self.steps {
            Some(steps) => steps.is_pending(hash),
            None => false,
        }
    }

    /// Whether anything is pending.
    pub(crate) fn is_waiting(&self) -> bool
        ensures { result ≡ nat_le 1 (length self.now.pending) }
    {
        match &self.steps {
            Some(steps) => steps.is_waiting(),
            None => false,
        }
    }

    /// A step reports its result.
    pub(crate) fn keep(
        &mut self,
        alloc: Global,
        hash: &StepHash,
        text: Bytes,
    ) -> Result<Naming, Memory>
        ensures ok { IfOk result (λ naming. IsNoted (keep_step hash.now text self.old)
            (record_step hash.now text self.old) self.old naming self.new) }
        ensures err { OnErr result (self.new ≡ self.old) }
    {
        self.begin(alloc)?;
        match &mut self.steps {
            Some(steps) => steps::keep(steps, alloc, hash, text),
            None => Err(Memory),
        }
    }

    /// A step is to run by a call of its own.
    pub(crate) fn plan(&mut self, alloc: Global, hash: &StepHash) -> Result<Naming, Memory>
        ensures ok { IfOk result (λ naming. IsNoted (note_plan hash.now self.old)
            (plan_step hash.now self.old) self.old naming self.new) }
        ensures err { OnErr result (self.new ≡ self.old) }
    {
        self.begin(alloc)?;
        match &mut self.steps {
            Some(steps) => steps::plan(steps, alloc, hash),
            None => Err(Memory),
        }
    }

    /// A step waits.
    pub(crate) fn pend(
        &mut self,
        alloc: Global,
        hash: &StepHash,
        kind: Pending,
    ) -> Result<Naming, Memory>
        ensures ok { IfOk result (λ naming. IsNoted (note_pending hash.now kind self.old)
            (pend_step hash.now kind self.old) self.old naming self.new) }
        ensures err { OnErr result (self.new ≡ self.old) }
    {
        self.begin(alloc)?;
        match &mut self.steps {
            Some(steps) => steps::pend(steps, alloc, hash, kind),
            None => Err(Memory),
        }
    }

    /// What a step waits for has come.
    pub(crate) fn wake(&mut self, alloc: Global, hash: &StepHash, text: Bytes) -> Result<(), Memory>
        requires { is_pending hash.now self.old ≡ true }
        ensures ok { OnOk result (self.new ≡ record_step hash.now text self.old) }
        ensures err { OnErr result (self.new ≡ self.old) }
    {
        match &mut self.steps {
            Some(steps) => steps::wake(steps, alloc, hash, text),
            None => Err(Memory),
        }
    }

    // They are on the heap from now on.
    fn begin(&mut self, alloc: Global) -> Result<(), Memory>
        ensures { self.new ≡ self.old }
    {
        if self.steps.is_none() {
            let steps = Box::new(alloc, Fresh::empty(alloc).begin())?;
            self.steps = Some(steps);
        }
        Ok(())
    }
}
