// The operations of a reply, in order.
ghost use Rattle.std.specs.Prelude.{◌≡◌, ◌||◌, nat_le, IfOk, OnOk};
ghost use Rattle.kinds.specs.declared.store.Pending.TheVariants as pending;
ghost use Rattle.machine.specs.Held.{Becomes, IsHeld};
ghost use Rattle.machine.specs.Operations.{at_run, early_taken, effect_of, error_taken, first_at, is_again, new_wait, note_of, plan_at, sleep_at, slept, stops, taken_again, taken_of, too_many_steps, wait_at, waited};
ghost use Rattle.machine.specs.View.{state_of};
ghost use Rattle.machine.specs.Words.{fail_at, retries_at};
ghost use Rattle.machine.specs.declared.operations.Taken.TheVariants.{Stops};
ghost use Rattle.run_model.specs.Recording.{change_run};
ghost use Rattle.run_model.specs.Replies.{begun, due_at, take_operation, take_operations};
ghost use Rattle.run_model.specs.State.{live_run};
ghost use Rattle.runs.specs.Changes.{if_new, naming_in, pend_in, plan_in, with_pending, with_plan};

use crate::Parts;
use crate::machine::LAST_MOMENT;
use crate::making::later;
use crate::results::{data_result, error_result};
use awaited::Sleep;
use event_keys::ReadEvent;
use expr::Expr;
use kinds::{Item, Op, Pending, StepHash, Steps, Time, Wait, error_object};
use lists::{Bytes, Items, Memory};
use runs::Naming;
use std::sync::ledger::Ledger;

/// What follows from operations for those behind them, and for the call that they answer.
#[derive(Clone, Copy, Debug, PartialEq, Eq)]
pub(crate) enum Taken {
    GoesOn,
    /// The call is to be made again.
    Again,
    /// The run has failed, and nothing more is taken.
    Stops,
}

impl Parts {
    pub(crate) fn take_operations<L: Ledger>(
        &mut self,
        item: &Item,
        ops: Items<Op>,
        no_retry: bool,
        steps: &mut Steps<L>,
    ) -> Result<Taken, Memory>
        requires held { IsHeld self.old }
        ensures taken { IfOk result (λ t. t
            ≡ taken_of (take_operations item.now no_retry ops (begun (state_of self.old)))) }
        ensures now { OnOk result (Becomes
            (take_operations item.now no_retry ops (begun (state_of self.old))).state
            self.old self.new) }
    {
        let mut again = false;
        for op in ops {
            let taken = self.take_operation(item, op, no_retry, steps)?;
            if stops(taken) {
                return Ok(Taken::Stops);
            }
            again = or_again(again, taken);
        }
        Ok(taken_again(again))
    }

    fn take_operation<L: Ledger>(
        &mut self,
        item: &Item,
        op: Op,
        no_retry: bool,
        steps: &mut Steps<L>,
    ) -> Result<Taken, Memory>
        requires held { IsHeld self.old }
        ensures taken { IfOk result (λ t. t
            ≡ taken_of (take_operation item.now no_retry op (begun (state_of self.old)))) }
        ensures now { OnOk result (Becomes
            (take_operation item.now no_retry op (begun (state_of self.old))).state self.old self.new) }
    {
        if let Some(taken) = self.take_early(item, &op, no_retry) {
            return Ok(taken);
        }
        let naming = self.take_named(item.run, op)?;
        match naming {
            Naming::New => Ok(Taken::GoesOn),
            Naming::Known => Ok(Taken::GoesOn),
            Naming::Full => self.stop(item.run, steps),
        }
    }

    // An error that isn't the last.
    fn take_early(&self, item: &Item, op: &Op, no_retry: bool) -> Option<Taken>
        ensures { result
            ≡ early_taken item.now no_retry op.now (live_run item.now.run (state_of self.now))
            (state_of self.now) }
    {
        match op {
            Op::StepError { hash, .. } if !no_retry && !self.is_last(item) => {
                Some(self.take_error(item.run, hash))
            }
            Op::StepRun { .. }
            | Op::StepError { .. }
            | Op::StepPlanned { .. }
            | Op::Sleep { .. }
            | Op::WaitForEvent { .. }
            | Op::InvokeFunction { .. } => None,
        }
    }

    // What an operation makes of its name.
    fn take_named(&mut self, run: u64, op: Op) -> Result<Naming, Memory>
        requires held { IsHeld self.old }
        ensures named { IfOk result
            (λ n. n ≡ naming_in (note_of op) (live_run run (state_of self.old))) }
        ensures now { IfOk result (λ n. Becomes (if_new n
            (at_run (effect_of op) (live_run run (state_of self.old)) (state_of self.old))
            (state_of self.old)) self.old self.new) }
    {
        match op {
            Op::StepRun { hash, value } => {
                let result = data_result(self.alloc, value.as_slice())?;
                self.keep(run, &hash, result)
            }
            Op::StepError { hash, error } => {
                let result = error_result(self.alloc, error.as_slice())?;
                self.keep(run, &hash, result)
            }
            Op::StepPlanned { hash } => self.plan(run, &hash),
            Op::Sleep { hash, time } => self.sleep(run, hash, time),
            Op::WaitForEvent {
                hash,
                event,
                timeout,
                cond,
            } => self.wait(run, hash, event, timeout, cond),
            Op::InvokeFunction {
                hash,
                function,
                payload,
                timeout,
            } => self.invoke(run, hash, &function, payload, timeout),
        }
    }

    // Whether no attempt is left for an item's call.
    fn is_last(&self, item: &Item) -> bool
        ensures { result
            ≡ nat_le (retries_at (live_run item.now.run (state_of self.now))
            (state_of self.now)) item.now.attempt }
    {
        match self.runs.live(item.run) {
            Some(run) => self.retries(run.version()) <= item.attempt,
            None => true,
        }
    }

    // An error that isn't the last: the call is made again, where the result would be new.
    fn take_error(&self, run: u64, hash: &StepHash) -> Taken
        ensures { result ≡ error_taken hash.now (live_run run (state_of self.now)) }
    {
        match self.runs.live(run) {
            Some(run) if run.has_new_result(hash) => Taken::Again,
            _ => Taken::GoesOn,
        }
    }

    // A run that has no room for one step more fails.
    fn stop<L: Ledger>(&mut self, run: u64, steps: &mut Steps<L>) -> Result<Taken, Memory>
        requires held { IsHeld self.old }
        ensures taken { IfOk result (λ t. t ≡ Stops) }
        ensures now { OnOk result (Becomes
            (fail_at (live_run run (state_of self.old)) too_many_steps (state_of self.old))
            self.old self.new) }
    {
        let error = error_object(self.alloc, b"too many steps")?;
        self.fail_run(run, error.as_slice(), steps)?;
        Ok(Taken::Stops)
    }

    // A step is to run by a call of its own.
    fn plan(&mut self, run: u64, hash: &StepHash) -> Result<Naming, Memory>
        requires held { IsHeld self.old }
        ensures named { IfOk result
            (λ n. n ≡ naming_in (plan_in hash.now) (live_run run (state_of self.old))) }
        ensures now { IfOk result (λ n. Becomes (if_new n
            (plan_at (live_run run (state_of self.old)) hash.now (state_of self.old))
            (state_of self.old)) self.old self.new) }
    {
        let naming = self.note_plan(run, hash)?;
        match naming {
            Naming::New => {
                self.queue_new(run, hash.as_slice())?;
                Ok(Naming::New)
            }
            Naming::Known => Ok(Naming::Known),
            Naming::Full => Ok(Naming::Full),
        }
    }

    fn note_plan(&mut self, run: u64, hash: &StepHash) -> Result<Naming, Memory>
        requires held { IsHeld self.old }
        ensures named { IfOk result
            (λ n. n ≡ naming_in (plan_in hash.now) (live_run run (state_of self.old))) }
        ensures now { IfOk result (λ n. Becomes (if_new n
            (change_run run (with_plan hash.now) (state_of self.old))
            (state_of self.old)) self.old self.new) }
    {
        let naming = self.runs.plan(run, hash)?;
        Ok(naming)
    }

    /// A step waits for something.
    pub(crate) fn pend(
        &mut self,
        run: u64,
        hash: &StepHash,
        kind: Pending,
    ) -> Result<Naming, Memory>
        requires held { IsHeld self.old }
        ensures named { IfOk result
            (λ n. n ≡ naming_in (pend_in hash.now kind) (live_run run (state_of self.old))) }
        ensures now { IfOk result (λ n. Becomes (if_new n
            (change_run run (with_pending hash.now kind) (state_of self.old))
            (state_of self.old)) self.old self.new) }
    {
        let naming = self.runs.pend(run, hash, kind)?;
        Ok(naming)
    }

    fn sleep(&mut self, run: u64, hash: StepHash, time: Time) -> Result<Naming, Memory>
        requires held { IsHeld self.old }
        ensures named { IfOk result
            (λ n. n ≡ naming_in (pend_in hash pending.Sleep) (live_run run (state_of self.old))) }
        ensures now { IfOk result (λ n. Becomes (if_new n
            (sleep_at (live_run run (state_of self.old)) hash time (state_of self.old))
            (state_of self.old)) self.old self.new) }
    {
        let naming = self.pend(run, &hash, Pending::Sleep)?;
        match naming {
            Naming::New => {
                self.add_sleep(run, hash, time)?;
                Ok(Naming::New)
            }
            Naming::Known => Ok(Naming::Known),
            Naming::Full => Ok(Naming::Full),
        }
    }

    fn add_sleep(&mut self, run: u64, hash: StepHash, time: Time) -> Result<(), Memory>
        requires held { IsHeld self.old }
        ensures { OnOk result (Becomes (slept run hash time (state_of self.old)) self.old self.new) }
    {
        let due = self.due_at(time)?;
        let number = self.counts.next_entry()?;
        self.sleeps.add(Sleep {
            number,
            run,
            hash,
            due,
        })?;
        Ok(())
    }

    /// When something is due: not before the moment, and not after the last.
    pub(crate) fn due_at(&self, time: Time) -> Result<u64, Memory>
        ensures { IfOk result (λ due. due ≡ due_at time self.now.moment) }
    {
        match time {
            Time::Span(span) => later(self.moment, span),
            Time::At(at) => Ok(self.moment.max(at.min(LAST_MOMENT))),
        }
    }

    fn wait(
        &mut self,
        run: u64,
        hash: StepHash,
        name: Bytes,
        timeout: Time,
        cond: Option<Expr>,
    ) -> Result<Naming, Memory>
        requires held { IsHeld self.old }
        ensures named { IfOk result
            (λ n. n ≡ naming_in (pend_in hash pending.Wait) (live_run run (state_of self.old))) }
        ensures now { IfOk result (λ n. Becomes (if_new n
            (wait_at (live_run run (state_of self.old)) hash name timeout cond (state_of self.old))
            (state_of self.old)) self.old self.new) }
    {
        let naming = self.pend(run, &hash, Pending::Wait)?;
        match naming {
            Naming::New => {
                self.add_wait(run, hash, name, timeout, cond)?;
                Ok(Naming::New)
            }
            Naming::Known => Ok(Naming::Known),
            Naming::Full => Ok(Naming::Full),
        }
    }

    fn add_wait(
        &mut self,
        run: u64,
        hash: StepHash,
        name: Bytes,
        timeout: Time,
        cond: Option<Expr>,
    ) -> Result<(), Memory>
        requires held { IsHeld self.old }
        ensures { OnOk result
            (Becomes (waited run hash name timeout cond (state_of self.old)) self.old self.new) }
    {
        let wait = self.new_wait(run, name, timeout, cond)?;
        self.counts.next_entry()?;
        self.waits.add(wait, hash)?;
        Ok(())
    }

    fn new_wait(
        &self,
        run: u64,
        name: Bytes,
        timeout: Time,
        cond: Option<Expr>,
    ) -> Result<Wait, Memory>
        ensures { IfOk result (λ w. w
            ≡ new_wait (live_run run (state_of self.now)) run name timeout cond (state_of self.now)) }
    {
        let first = self.first_of(run);
        let event = ReadEvent::read(self.alloc, self.texts.text_or_none(first))?;
        let bucket = event.bucket_of(self.alloc, cond.as_ref())?;
        Ok(Wait {
            number: later(self.counts.entries, 1)?,
            run,
            first,
            name,
            cond,
            due: self.due_at(timeout)?,
            bucket,
        })
    }

    // A run's first event.
    fn first_of(&self, run: u64) -> u64
        ensures { result ≡ first_at (live_run run (state_of self.now)) }
    {
        match self.runs.live(run) {
            Some(run) => run.first(),
            None => 0,
        }
    }
}

fn stops(taken: Taken) -> bool
    ensures { result ≡ stops taken }
{
    match taken {
        Taken::Stops => true,
        Taken::GoesOn | Taken::Again => false,
    }
}

fn or_again(again: bool, taken: Taken) -> bool
    ensures { result ≡ (again || is_again taken) }
{
    match taken {
        Taken::Again => true,
        Taken::GoesOn | Taken::Stops => again,
    }
}

fn taken_again(again: bool) -> Taken
    ensures { result ≡ taken_again again }
{
    if again { Taken::Again } else { Taken::GoesOn }
}
