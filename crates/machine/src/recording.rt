// What a run records, and when it is found out what comes next.
ghost use Rattle.std.specs.Prelude.{◌≡◌, IfOk, OnOk};
ghost use Rattle.machine.specs.Held.{Becomes, IsHeld};
ghost use Rattle.machine.specs.View.{state_of};
ghost use Rattle.machine.specs.Words.{when_of};
ghost use Rattle.run_model.specs.Recording.{change_run, discovered, record_result, wake_step};
ghost use Rattle.run_model.specs.Replies.{want};
ghost use Rattle.run_model.specs.State.{live_run};
ghost use Rattle.runs.specs.Changes.{if_new, keep_in, naming_in};

use crate::Parts;
use kinds::StepHash;
use lists::{Bytes, Memory};
use runs::Naming;

/// When runs that want to find out what comes next get an item for that.
#[derive(Clone, Copy, Debug, PartialEq, Eq)]
pub(crate) enum Discovery {
    AtOnce,
    /// At the end of the reply or the failure.
    AtTheEnd,
}

impl Parts {
    pub(crate) fn discovered(&mut self, discovery: Discovery) -> Result<(), Memory>
        requires held { IsHeld self.old }
        ensures { OnOk result
            (Becomes (discovered (when_of discovery) (state_of self.old)) self.old self.new) }
    {
        match discovery {
            Discovery::AtOnce => self.discover(),
            Discovery::AtTheEnd => Ok(()),
        }
    }

    /// What a step of a run waits for has come. It isn't called any more, and what comes next is to be found out.
    /// Nothing happens where the run has ended or the step doesn't wait.
    pub(crate) fn wake(&mut self, run: u64, hash: &StepHash, text: Bytes) -> Result<(), Memory>
        requires held { IsHeld self.old }
        ensures { OnOk result
            (Becomes (wake_step run hash.now text (state_of self.old)) self.old self.new) }
    {
        if self.runs.wake(run, hash, text)? {
            self.admission.remove_step(run, hash);
            self.wanting.insert(run)?;
        }
        Ok(())
    }

    /// A step of a run reports its result. Where the name is new, its queued item goes.
    pub(crate) fn keep(&mut self, run: u64, hash: &StepHash, text: Bytes) -> Result<Naming, Memory>
        requires held { IsHeld self.old }
        ensures named { IfOk result (λ n.
            n ≡ naming_in (keep_in hash.now text) (live_run run (state_of self.old))) }
        ensures now { IfOk result (λ n. Becomes
            (if_new n (record_result run hash.now text (state_of self.old)) (state_of self.old))
            self.old self.new) }
    {
        let naming = self.runs.keep(run, hash, text)?;
        match naming {
            Naming::New => {
                self.admission.remove_step(run, hash);
                self.wanting.insert(run)?;
                Ok(Naming::New)
            }
            Naming::Known => Ok(Naming::Known),
            Naming::Full => Ok(Naming::Full),
        }
    }

    /// A run is to find out what comes next.
    pub(crate) fn want(&mut self, run: u64) -> Result<(), Memory>
        requires held { IsHeld self.old }
        ensures { OnOk result (Becomes (change_run run want (state_of self.old)) self.old self.new) }
    {
        self.wanting.insert(run)?;
        self.runs.want(run);
        Ok(())
    }
}
