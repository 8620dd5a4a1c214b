// A run on the heap.
ghost use Rattle.std.specs.Prelude.{◌≡◌, true, IfOk, OnOk, OnErr};
ghost use Rattle.kinds.specs.RunSteps.{is_pending};
ghost use Rattle.runs.specs.Changes.{IsNoted, want, called, with_result, with_plan, with_pending};
ghost use Rattle.runs.specs.Changes.{keep_in, plan_in, pend_in};

use crate::{Naming, Run};
use kinds::{Pending, StepHash};
use lists::{Bytes, Memory};
use std::alloc::Global;
use std::marker::Model;

/// A run on the heap, so that a list of runs holds a pointer for each. Contracts see the run.
#[derive(Drop)]
pub(crate) struct BoxedRun {
    run: Box<Run>,
}

impl Model for BoxedRun {
    ghost use Rattle.std.specs.Prelude.{box_value};
    ghost use Rattle.runs.specs.Runs.{Run};

    ghost Value = { Run };

    ghost view = { λ k. box_value k.run };
}

impl BoxedRun {
    pub(crate) fn new(alloc: Global, run: Run) -> Result<Self, Memory>
        ensures { IfOk result (λ boxed. boxed ≡ run) }
    {
        let run = Box::new(alloc, run)?;
        Ok(BoxedRun { run })
    }

    pub(crate) fn run(&self) -> &Run
        ensures { result.now ≡ self.now }
    {
        &self.run
    }

    pub(crate) fn into_run(self) -> Run
        ensures { result ≡ self }
    {
        Box::into_inner(self.run)
    }

    pub(crate) fn want(&mut self)
        ensures { self.new ≡ want self.old }
    {
        self.run.want();
    }

    pub(crate) fn call(&mut self, target: &[u8])
        ensures { self.new ≡ called target.now self.old }
    {
        self.run.call(target);
    }

    pub(crate) fn keep(&mut self, hash: &StepHash, text: Bytes) -> Result<Naming, Memory>
        ensures ok { IfOk result (λ naming. IsNoted (keep_in hash.now text self.old)
            (with_result hash.now text self.old) self.old naming self.new) }
        ensures err { OnErr result (self.new ≡ self.old) }
    {
        self.run.keep(hash, text)
    }

    pub(crate) fn wake(&mut self, hash: &StepHash, text: Bytes) -> Result<(), Memory>
        requires { is_pending hash.now self.old.steps ≡ true }
        ensures ok { OnOk result (self.new ≡ with_result hash.now text self.old) }
        ensures err { OnErr result (self.new ≡ self.old) }
    {
        self.run.wake(hash, text)
    }

    pub(crate) fn plan(&mut self, hash: &StepHash) -> Result<Naming, Memory>
        ensures ok { IfOk result (λ naming. IsNoted (plan_in hash.now self.old)
            (with_plan hash.now self.old) self.old naming self.new) }
        ensures err { OnErr result (self.new ≡ self.old) }
    {
        self.run.plan(hash)
    }

    pub(crate) fn pend(&mut self, hash: &StepHash, kind: Pending) -> Result<Naming, Memory>
        ensures ok { IfOk result (λ naming. IsNoted (pend_in hash.now kind self.old)
            (with_pending hash.now kind self.old) self.old naming self.new) }
        ensures err { OnErr result (self.new ≡ self.old) }
    {
        self.run.pend(hash, kind)
    }
}
