// What a reply to a call does, and a call that fails.
ghost use Rattle.std.specs.Prelude.{◌≡◌, ◌<◌, ◌+◌, None, is_some, IfOk, IfSome, OnOk};
ghost use Rattle.std.specs.List.{list_any};
ghost use Rattle.kinds.specs.ErrorObject.{error_object};
ghost use Rattle.kinds.specs.RunSteps.{has_name, is_recorded};
ghost use Rattle.machine.specs.Held.{Becomes, IsHeld};
ghost use Rattle.machine.specs.Replies.{HasRoom, idle_at, is_called, is_resting, lacks, next_of, ops_at, outcome_at};
ghost use Rattle.machine.specs.View.{state_of};
ghost use Rattle.machine.specs.Words.{item_in};
ghost use Rattle.run_model.specs.Fit.{HasOwnNumbers, IsAside};
ghost use Rattle.run_model.specs.Making.{queue};
ghost use Rattle.run_model.specs.Replies.{after_found, again, close, fail_found, is_outcome_of, on_call_failed, on_reply, retries_at, retry};
ghost use Rattle.run_model.specs.State.{function_at, live_run, open_issue};

use crate::Parts;
use crate::making::{STEP, later};
use crate::operations::Taken;
use kinds::{After, Item, Op, Outcome, ReplyIn, StepEntry, StepHash, Steps, error_object};
use lists::{Items, Memory};
use runs::Run;
use sdk_reply::{delay, read_reply};
use std::sync::ledger::Ledger;

impl Parts {
    /// A call is open no more, and its cells are free. Gives the item that it was made for.
    pub(crate) fn close(&mut self, call: u64) -> Result<Option<Item>, Memory>
        requires held { IsHeld self.old }
        ensures item { IfOk result (λ item. item ≡ item_in (open_issue call (state_of self.old))) }
        ensures now { OnOk result (Becomes (close call (state_of self.old)) self.old self.new) }
    {
        let Some(issue) = self.admission.close(call)? else {
            return Ok(None);
        };
        self.wanting.insert(issue.item.run)?;
        self.loose.runs.insert(issue.item.run)?;
        Ok(Some(issue.item))
    }

    /// The reply to a call. One whose call has ended by the advance of this step, or whose run has ended, changes
    /// nothing more.
    pub(crate) fn on_reply<L: Ledger>(
        &mut self,
        call: u64,
        reply: &ReplyIn,
        steps: &mut Steps<L>,
    ) -> Result<(), Memory>
        requires held { IsHeld self.old }
        requires apart { HasOwnNumbers (state_of self.old) }
        ensures { OnOk result (Becomes (on_reply call reply.now (state_of self.old)) self.old self.new) }
    {
        let Some(item) = self.close(call)? else {
            return Ok(());
        };
        if !self.is_live(item.run) {
            return Ok(());
        }
        let outcome = read_reply(self.alloc, reply)?;
        self.take_outcome(item, outcome, steps)?;
        self.discover()
    }

    // Whether a run has not ended.
    fn is_live(&self, run: u64) -> bool
        ensures { result ≡ is_some (live_run run (state_of self.now)) }
    {
        self.runs.live(run).is_some()
    }

    /// A call that couldn't be made, or whose answer never came.
    pub(crate) fn on_call_failed<L: Ledger>(
        &mut self,
        call: u64,
        steps: &mut Steps<L>,
    ) -> Result<(), Memory>
        requires held { IsHeld self.old }
        requires apart { HasOwnNumbers (state_of self.old) }
        ensures { OnOk result (Becomes (on_call_failed call (state_of self.old)) self.old self.new) }
    {
        self.fail_call(call, b"call failed", steps)
    }

    /// A call fails with the server's own error.
    pub(crate) fn fail_call<L: Ledger>(
        &mut self,
        call: u64,
        message: &[u8],
        steps: &mut Steps<L>,
    ) -> Result<(), Memory>
        requires held { IsHeld self.old }
        requires apart { HasOwnNumbers (state_of self.old) }
        ensures { OnOk result (Becomes
            (fail_found (open_issue call (state_of self.old)) (error_object message.now)
            (state_of self.old))
            self.old self.new) }
    {
        let Some(item) = self.close(call)? else {
            return Ok(());
        };
        self.retry_with(item, After::None, message, steps)?;
        self.discover()
    }

    fn take_outcome<L: Ledger>(
        &mut self,
        item: Item,
        outcome: Outcome,
        steps: &mut Steps<L>,
    ) -> Result<(), Memory>
        requires held { IsHeld self.old }
        requires aside { IsAside item (state_of self.old) }
        ensures { OnOk result (Becomes
            (outcome_at (live_run item.run (state_of self.old)) item outcome (state_of self.old))
            self.old self.new) }
    {
        match outcome {
            Outcome::Ended { output } => self.complete_run(item.run, output.as_slice()),
            Outcome::Ops {
                ops,
                no_retry,
                after,
            } => self.take_ops(item, ops, no_retry, after, steps),
            Outcome::Retry { after, error } => self.retry(item, after, error.as_slice(), steps),
            Outcome::NoRetry { error } => self.fail_run(item.run, error.as_slice(), steps),
            Outcome::Unreadable { .. } => {
                self.retry_with(item, After::None, b"unreadable reply", steps)
            }
        }
    }

    // A failure with the server's own error.
    fn retry_with<L: Ledger>(
        &mut self,
        item: Item,
        after: After,
        message: &[u8],
        steps: &mut Steps<L>,
    ) -> Result<(), Memory>
        requires held { IsHeld self.old }
        requires aside { IsAside item (state_of self.old) }
        ensures { OnOk result (Becomes
            (retry item after (error_object message.now) (state_of self.old)) self.old self.new) }
    {
        let error = error_object(self.alloc, message)?;
        self.retry(item, after, error.as_slice(), steps)
    }

    // The call of a recorded step isn't made again, and it is to be found out what comes next. Others are made
    // again while attempts are left, and then the run fails. Where the run has ended, nothing happens.
    fn retry<L: Ledger>(
        &mut self,
        item: Item,
        after: After,
        error: &[u8],
        steps: &mut Steps<L>,
    ) -> Result<(), Memory>
        requires held { IsHeld self.old }
        requires aside { IsAside item (state_of self.old) }
        ensures { OnOk result
            (Becomes (retry item after error.now (state_of self.old)) self.old self.new) }
    {
        let run = item.run;
        match self.next_of(&item) {
            Next::Nothing => Ok(()),
            Next::Want => self.want(run),
            Next::Again => self.queue_again(item, after),
            Next::Fail => self.fail_run(run, error, steps),
        }
    }

    fn next_of(&self, item: &Item) -> Next
        ensures next { result
            ≡ next_of (live_run item.now.run (state_of self.now)) item.now (state_of self.now) }
        ensures room { HasRoom result item.now.attempt }
    {
        let Some(run) = self.runs.live(item.run) else {
            return Next::Nothing;
        };
        if has_recorded(run, item.target.as_slice()) {
            Next::Want
        } else if item.attempt < self.retries(run.version()) {
            Next::Again
        } else {
            Next::Fail
        }
    }

    /// How often a call of a function's version is made again.
    pub(crate) fn retries(&self, version: u64) -> u8
        ensures { result ≡ retries_at (function_at version (state_of self.now)) }
    {
        match self.versions.get(version) {
            Some(entry) => entry.function.retries,
            None => 0,
        }
    }

    // The same item with the next attempt, due after the delay.
    fn queue_again(&mut self, item: Item, after: After) -> Result<(), Memory>
        requires held { IsHeld self.old }
        requires aside { IsAside item (state_of self.old) }
        requires attempts { item.attempt < 255 }
        ensures { OnOk result (Becomes
            (queue (again item after (state_of self.old)) (state_of self.old)) self.old self.new) }
    {
        let due = later(self.moment, delay(item.attempt, &after, self.moment))?;
        self.admission.add(again(item, due))
    }

    // The operations of a reply.
    fn take_ops<L: Ledger>(
        &mut self,
        item: Item,
        ops: Items<Op>,
        no_retry: bool,
        after: After,
        steps: &mut Steps<L>,
    ) -> Result<(), Memory>
        requires held { IsHeld self.old }
        requires aside { IsAside item (state_of self.old) }
        ensures { OnOk result (Becomes
            (ops_at (live_run item.run (state_of self.old)) item ops no_retry after (state_of self.old))
            self.old self.new) }
    {
        if lacks_target(item.target.as_slice(), ops.as_slice()) {
            return self.retry_with(item, after, b"target missing", steps);
        }
        let taken = self.take_operations(&item, ops, no_retry, steps)?;
        match taken {
            Taken::Stops => Ok(()),
            Taken::Again => self.retry(item, after, b"", steps),
            Taken::GoesOn => self.after_operations(item, after, steps),
        }
    }

    // Where nothing would ever move the run, the call has failed.
    fn after_operations<L: Ledger>(
        &mut self,
        item: Item,
        after: After,
        steps: &mut Steps<L>,
    ) -> Result<(), Memory>
        requires held { IsHeld self.old }
        requires aside { IsAside item (state_of self.old) }
        ensures { OnOk result (Becomes
            (after_found (live_run item.run (state_of self.old)) item after (state_of self.old))
            self.old self.new) }
    {
        if self.is_idle(item.run) {
            return self.retry_with(item, after, b"reply moved nothing", steps);
        }
        Ok(())
    }

    // Whether nothing would ever move a run.
    fn is_idle(&self, number: u64) -> bool
        ensures { result ≡ idle_at (live_run number (state_of self.now)) (state_of self.now) }
    {
        match self.runs.live(number) {
            Some(run) => !self.is_called(number) && is_resting(run),
            None => false,
        }
    }

    // Whether an item of a run is queued, or a call of it is open.
    fn is_called(&self, number: u64) -> bool
        ensures { result ≡ is_called number (state_of self.now) }
    {
        self.admission.has_items_of(number) || self.admission.has_open_call(number)
    }
}

// The same item with the next attempt, due at a moment.
fn again(item: Item, due: u64) -> Item
    requires attempts { item.attempt < 255 }
    ensures { result ≡ record item { attempt = item.attempt + 1; due = due; start = None } }
{
    Item {
        attempt: item.attempt + 1,
        due,
        start: None,
        ..item
    }
}

// Whether a run waits for nothing, and isn't to find out what comes next.
fn is_resting(run: &Run) -> bool
    ensures { result ≡ is_resting run.now }
{
    !run.is_waiting() && !run.is_wanted()
}

// What becomes of an item whose call failed.
enum Next {
    /// The run has ended.
    Nothing,
    Want,
    Again,
    Fail,
}

/// Whether the step that an item is of is recorded.
pub(crate) fn has_recorded(run: &Run, target: &[u8]) -> bool
    ensures { result ≡ is_recorded target.now run.now.steps }
{
    match hash_of(target) {
        Some(hash) => run.is_recorded(&hash),
        None => has_step(run.steps(), target),
    }
}

fn has_step(steps: &[StepEntry], name: &[u8]) -> bool
    ensures { result ≡ list_any (has_name name.now) steps.now }
{
    steps.iter().any(|step| name == step.hash.as_slice())
}

fn hash_of(target: &[u8]) -> Option<StepHash>
    ensures { IfSome result (λ hash. hash ≡ target.now) }
{
    if target.len() != 40 {
        return None;
    }
    let mut digits = [0; 40];
    digits.copy_from_slice(target);
    Some(StepHash::new(digits))
}

// Whether a call was made for a step that the operations don't tell of.
fn lacks_target(target: &[u8], ops: &[Op]) -> bool
    ensures { result ≡ lacks target.now ops.now }
{
    target != STEP && !tells_of(target, ops)
}

fn tells_of(target: &[u8], ops: &[Op]) -> bool
    ensures { result ≡ list_any (is_outcome_of target.now) ops.now }
{
    ops.iter().any(|op| is_outcome_of(target, op))
}

fn is_outcome_of(target: &[u8], op: &Op) -> bool
    ensures { result ≡ is_outcome_of target.now op.now }
{
    match op {
        Op::StepRun { hash, .. } | Op::StepError { hash, .. } => target == hash.as_slice(),
        Op::StepPlanned { .. }
        | Op::Sleep { .. }
        | Op::WaitForEvent { .. }
        | Op::InvokeFunction { .. } => false,
    }
}
