// A note on a name of a run's steps, which are put back after it.
ghost use Rattle.std.specs.Prelude.{◌≡◌, true, IfOk, OnOk, OnErr};
ghost use Rattle.kinds.specs.RunSteps.{is_pending, keep_step, note_plan, note_pending, record_step};
ghost use Rattle.kinds.specs.RunSteps.{plan_step, pend_step};
ghost use Rattle.run_state.specs.Noted.{steps_of};
ghost use Rattle.runs.specs.Changes.{IsNoted};
ghost use Rattle.runs.specs.Noted.{Tells, IsStarved};

use crate::Naming;
use kinds::{Pending, StepHash};
use lists::{Bytes, Memory};
use run_state::{Active, Fresh, Noted};
use std::alloc::Global;
use std::mem;

// Takes the steps out.
fn taken(steps: &mut Active, alloc: Global) -> Active
    ensures { result ≡ steps.old }
{
    mem::replace(steps, Fresh::empty(alloc).begin())
}

fn put_back(steps: &mut Active, noted: Noted) -> Result<Naming, Memory>
    ensures steps { steps.new ≡ steps_of noted }
    ensures ok { IfOk result (Tells noted) }
    ensures err { OnErr result (IsStarved noted) }
{
    match noted {
        Noted::New(next) => {
            *steps = next;
            Ok(Naming::New)
        }
        Noted::Known(same) => {
            *steps = same;
            Ok(Naming::Known)
        }
        Noted::Full(same) => {
            *steps = same;
            Ok(Naming::Full)
        }
        Noted::Memory(same) => {
            *steps = same;
            Err(Memory)
        }
    }
}

/// A step reports its result.
pub(crate) fn keep(
    steps: &mut Active,
    alloc: Global,
    hash: &StepHash,
    text: Bytes,
) -> Result<Naming, Memory>
    ensures ok { IfOk result (λ naming. IsNoted (keep_step hash.now text steps.old)
        (record_step hash.now text steps.old) steps.old naming steps.new) }
    ensures err { OnErr result (steps.new ≡ steps.old) }
{
    let noted = taken(steps, alloc).keep(hash, text);
    put_back(steps, noted)
}

/// A step is to run by a call of its own.
pub(crate) fn plan(steps: &mut Active, alloc: Global, hash: &StepHash) -> Result<Naming, Memory>
    ensures ok { IfOk result (λ naming. IsNoted (note_plan hash.now steps.old)
        (plan_step hash.now steps.old) steps.old naming steps.new) }
    ensures err { OnErr result (steps.new ≡ steps.old) }
{
    let noted = taken(steps, alloc).plan(hash);
    put_back(steps, noted)
}

/// A step waits.
pub(crate) fn pend(
    steps: &mut Active,
    alloc: Global,
    hash: &StepHash,
    kind: Pending,
) -> Result<Naming, Memory>
    ensures ok { IfOk result (λ naming. IsNoted (note_pending hash.now kind steps.old)
        (pend_step hash.now kind steps.old) steps.old naming steps.new) }
    ensures err { OnErr result (steps.new ≡ steps.old) }
{
    let noted = taken(steps, alloc).pend(hash, kind);
    put_back(steps, noted)
}

/// What a step waits for has come.
pub(crate) fn wake(
    steps: &mut Active,
    alloc: Global,
    hash: &StepHash,
    text: Bytes,
) -> Result<(), Memory>
    requires { is_pending hash.now steps.old ≡ true }
    ensures ok { OnOk result (steps.new ≡ record_step hash.now text steps.old) }
    ensures err { OnErr result (steps.new ≡ steps.old) }
{
    let noted = taken(steps, alloc).wake(hash, text);
    put_back(steps, noted)?;
    Ok(())
}
