// A run of a map: it comes, is found, changes or goes.
ghost use Rattle.std.specs.Prelude.{◌≡◌, true, IfNone, IfOk, OnOk, OnErr};
ghost use Rattle.std.specs.BTreeMap.{IsOrdered, insert_entry, is_at};
ghost use Rattle.std.specs.Map.{remove_entry};
ghost use Rattle.std.specs.Option.{IfNone, option_copied};
ghost use Rattle.std.specs.Ordering.{nat_cmp};
ghost use Rattle.runs.specs.Runs.{};
ghost use Rattle.runs.specs.Changes.{want, called, with_result, with_plan, with_pending, naming_in};
ghost use Rattle.runs.specs.Changes.{if_new, is_pending_in, keep_in, plan_in, pend_in};
ghost use Rattle.runs.specs.Indexes.{held, changed_at};

use crate::boxed::BoxedRun;
use crate::{Naming, Run};
use kinds::{Pending, StepHash};
use lists::{Bytes, Memory};
use std::alloc::Global;
use std::collections::BTreeMap;

pub(crate) fn put_at(
    runs: &mut BTreeMap<u64, BoxedRun>,
    alloc: Global,
    number: u64,
    run: Run,
) -> Result<(), Memory>
    ensures entries { OnOk result (runs.new.entries ≡ insert_entry nat_cmp runs.old.entries number run) }
    ensures ordered { OnOk result (IsOrdered nat_cmp runs.new) }
{
    let boxed = BoxedRun::new(alloc, run)?;
    runs.insert(number, boxed)?;
    Ok(())
}

pub(crate) fn find_at(runs: &BTreeMap<u64, BoxedRun>, number: u64) -> Option<&Run>
    ensures value { option_copied result ≡ held number runs.now.entries }
{
    match runs.get(&number) {
        Some(run) => Some(run.run()),
        None => None,
    }
}

pub(crate) fn take_at(runs: &mut BTreeMap<u64, BoxedRun>, number: u64) -> Option<Run>
    ensures value { result ≡ held number runs.old.entries }
    ensures entries { runs.new.entries ≡ remove_entry (is_at (nat_cmp number)) runs.old.entries }
    ensures ordered { IsOrdered nat_cmp runs.new }
    ensures unchanged { IfNone result (runs.new.entries ≡ runs.old.entries) }
{
    match runs.remove(&number) {
        Some(run) => Some(run.into_run()),
        None => None,
    }
}

pub(crate) fn want_at(runs: &mut BTreeMap<u64, BoxedRun>, number: u64)
    ensures { runs.new.entries ≡ changed_at number want runs.old.entries }
{
    let Some(run) = runs.get_mut(&number) else {
        return;
    };
    run.want();
}

pub(crate) fn call_at(runs: &mut BTreeMap<u64, BoxedRun>, number: u64, target: &[u8])
    ensures { runs.new.entries ≡ changed_at number (called target.now) runs.old.entries }
{
    let Some(run) = runs.get_mut(&number) else {
        return;
    };
    run.call(target);
}

/// A step reports its result, which fits.
pub(crate) fn keep_at(
    runs: &mut BTreeMap<u64, BoxedRun>,
    number: u64,
    hash: &StepHash,
    text: Bytes,
) -> Result<Naming, Memory>
    ensures named { IfOk result (λ n.
        n ≡ naming_in (keep_in hash.now text) (held number runs.old.entries)) }
    ensures now { IfOk result (λ n. runs.new.entries
        ≡ if_new n (changed_at number (with_result hash.now text) runs.old.entries) runs.old.entries) }
    ensures err { OnErr result (runs.new.entries ≡ runs.old.entries) }
{
    let Some(run) = runs.get_mut(&number) else {
        return Ok(Naming::Known);
    };
    run.keep(hash, text)
}

/// What a step waits for has come, with a result that fits.
pub(crate) fn wake_at(
    runs: &mut BTreeMap<u64, BoxedRun>,
    number: u64,
    hash: &StepHash,
    text: Bytes,
) -> Result<(), Memory>
    requires { is_pending_in hash.now (held number runs.old.entries) ≡ true }
    ensures ok { OnOk result
        (runs.new.entries ≡ changed_at number (with_result hash.now text) runs.old.entries) }
    ensures err { OnErr result (runs.new.entries ≡ runs.old.entries) }
{
    let Some(run) = runs.get_mut(&number) else {
        return Ok(());
    };
    run.wake(hash, text)
}

/// A step is to run by a call of its own.
pub(crate) fn plan_at(
    runs: &mut BTreeMap<u64, BoxedRun>,
    number: u64,
    hash: &StepHash,
) -> Result<Naming, Memory>
    ensures named { IfOk result (λ n. n ≡ naming_in (plan_in hash.now) (held number runs.old.entries)) }
    ensures now { IfOk result (λ n. runs.new.entries
        ≡ if_new n (changed_at number (with_plan hash.now) runs.old.entries) runs.old.entries) }
    ensures err { OnErr result (runs.new.entries ≡ runs.old.entries) }
{
    let Some(run) = runs.get_mut(&number) else {
        return Ok(Naming::Known);
    };
    run.plan(hash)
}

/// A step waits.
pub(crate) fn pend_at(
    runs: &mut BTreeMap<u64, BoxedRun>,
    number: u64,
    hash: &StepHash,
    kind: Pending,
) -> Result<Naming, Memory>
    ensures named { IfOk result (λ n.
        n ≡ naming_in (pend_in hash.now kind) (held number runs.old.entries)) }
    ensures now { IfOk result (λ n. runs.new.entries
        ≡ if_new n (changed_at number (with_pending hash.now kind) runs.old.entries) runs.old.entries) }
    ensures err { OnErr result (runs.new.entries ≡ runs.old.entries) }
{
    let Some(run) = runs.get_mut(&number) else {
        return Ok(Naming::Known);
    };
    run.pend(hash, kind)
}
