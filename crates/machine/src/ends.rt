// How a run ends: what of it goes, what its parent records, and the event of a failed run.
ghost use Rattle.std.specs.Prelude.{◌≡◌, ◌≤◌, ◌^◌, None, IfOk, OnErr, OnOk};
ghost use Rattle.std.specs.Option.{option_map};
ghost use Rattle.kinds.specs.Moments.{last_moment};
ghost use Rattle.machine.specs.Ends.{ending_of};
ghost use Rattle.machine.specs.Held.{Becomes, IsHeld};
ghost use Rattle.machine.specs.View.{state_of};
ghost use Rattle.machine.specs.Words.{cancel_at, complete_at, content_at, end_at, fail_at, parent_at, raise_by, when_of};
ghost use Rattle.run_model.specs.Ends.{ended_run, failed_content, failed_name, function_id, id_at, is_of_failure, own_event, raise, tell_parent, without_invocation_of};
ghost use Rattle.run_model.specs.State.{function_at, live_run};
ghost use Rattle.runs.specs.Changes.{is_pending_in};
ghost use Rattle.step_ids.specs.Run.{run_text};

use crate::Parts;
use crate::recording::Discovery;
use crate::results::{copied, data_result, error_result};
use kinds::{EventIn, Parent, RunStatus, Steps, error_object};
use lists::{Bytes, Memory};
use runs::{EndedRun, Run};
use std::sync::ledger::Ledger;
use step_ids::run_id;

/// The name of the event of a failed run.
const FAILED: &[u8] = b"inngest/function.failed";

/// How the text of such an event begins.
const FAILED_BEGUN: &[u8] = b"{\"name\":\"inngest/function.failed\",";

/// The greatest number of a run that an id has room for.
const MOST_RUNS: u64 = (1 << 62) - 1;

/// What is looked up of a run that ends.
#[derive(Drop)]
struct Ending {
    parent: Option<Parent>,
    version: u64,
    ended: EndedRun,
}

impl Parts {
    /// A run is completed with an output, within a reply.
    pub(crate) fn complete_run(&mut self, run: u64, output: &[u8]) -> Result<(), Memory>
        requires held { IsHeld self.old }
        ensures { OnOk result (Becomes
            (complete_at (live_run run (state_of self.old)) output.now (state_of self.old))
            self.old self.new) }
    {
        let parent = self.end_run(run, RunStatus::Completed)?;
        let result = data_result(self.alloc, output)?;
        self.tell_parent(parent, result, Discovery::AtTheEnd)
    }

    /// A run has failed with an error, within a reply or a failure.
    pub(crate) fn fail_run<L: Ledger>(
        &mut self,
        run: u64,
        error: &[u8],
        steps: &mut Steps<L>,
    ) -> Result<(), Memory>
        requires held { IsHeld self.old }
        ensures { OnOk result (Becomes
            (fail_at (live_run run (state_of self.old)) error.now (state_of self.old))
            self.old self.new) }
    {
        let content = self.failed_content(run, error)?;
        let parent = self.end_run(run, RunStatus::Failed)?;
        let result = error_result(self.alloc, error)?;
        self.tell_parent(parent, result, Discovery::AtTheEnd)?;
        self.raise_failed(content, steps)
    }

    /// A run is cancelled, where it has not ended. Its children go on.
    pub(crate) fn cancel_run(&mut self, run: u64, discovery: Discovery) -> Result<(), Memory>
        requires held { IsHeld self.old }
        ensures { OnOk result (Becomes
            (cancel_at (when_of discovery) (live_run run (state_of self.old)) (state_of self.old))
            self.old self.new) }
    {
        let parent = self.end_run(run, RunStatus::Cancelled)?;
        let error = error_object(self.alloc, b"invoked run cancelled")?;
        let result = error_result(self.alloc, error.as_slice())?;
        self.tell_parent(parent, result, discovery)
    }

    // A run ends: its items, sleeps, waits, invocations and rules go. Its open calls stay. Gives who invoked it.
    fn end_run(&mut self, number: u64, status: RunStatus) -> Result<Option<Parent>, Memory>
        requires held { IsHeld self.old }
        ensures parent { IfOk result (λ p. p ≡ parent_at (live_run number (state_of self.old))) }
        ensures now { OnOk result (Becomes
            (end_at (live_run number (state_of self.old)) status (state_of self.old))
            self.old self.new) }
    {
        let Some(
            Ending {
                parent,
                version,
                ended,
            },
        ) = self.ending(number, status)?
        else {
            return Ok(None);
        };
        self.loose.runs.insert(number)?;
        self.loose.touch(version, ended.events.as_slice())?;
        self.runs.end(number)?;
        self.admission.remove_run(number);
        self.sleeps.drop_run(number);
        self.waits.drop_run(number);
        self.invocations.drop_run(number);
        self.rules.drop_run(number);
        let out = self.ended.add(ended)?;
        self.loose.runs.insert_some(out)?;
        Ok(parent)
    }

    fn ending(&self, number: u64, status: RunStatus) -> Result<Option<Ending>, Memory>
        ensures { IfOk result (λ e. e
            ≡ option_map (ending_of status (state_of self.now)) (live_run number (state_of self.now))) }
    {
        let Some(run) = self.runs.live(number) else {
            return Ok(None);
        };
        Ok(Some(Ending {
            parent: run.parent(),
            version: run.version(),
            ended: self.ended_run(run, status)?,
        }))
    }

    fn ended_run(&self, run: &Run, status: RunStatus) -> Result<EndedRun, Memory>
        ensures { IfOk result (λ e. e ≡ ended_run run.now status (state_of self.now)) }
    {
        Ok(EndedRun {
            run: run.number(),
            moment: run.moment(),
            function: self.function_id(run.version())?,
            status,
            events: copied(self.alloc, run.events())?,
        })
    }

    // The id of a function by its version.
    fn function_id(&self, version: u64) -> Result<Bytes, Memory>
        ensures { IfOk result (λ id. id ≡ id_at (function_at version (state_of self.now))) }
    {
        match self.versions.get(version) {
            Some(entry) => Ok(entry.function.id.clone()?),
            None => Ok(Bytes::new(self.alloc)),
        }
    }

    // A run that invoked this one, and still waits for it, records its result.
    fn tell_parent(
        &mut self,
        parent: Option<Parent>,
        text: Bytes,
        discovery: Discovery,
    ) -> Result<(), Memory>
        requires held { IsHeld self.old }
        ensures { OnOk result (Becomes
            (tell_parent (when_of discovery) parent text (state_of self.old)) self.old self.new) }
    {
        let Some(parent) = parent else {
            return Ok(());
        };
        if !self.awaits(&parent) {
            return Ok(());
        }
        self.forget_invocation(&parent);
        self.wake(parent.run, &parent.hash, text)?;
        self.discovered(discovery)
    }

    // An invocation has come to its end.
    fn forget_invocation(&mut self, parent: &Parent)
        requires held { IsHeld self.old }
        ensures { Becomes (without_invocation_of parent.now (state_of self.old)) self.old self.new }
    {
        self.invocations.remove_of(parent);
    }

    // Whether the step of a parent waits.
    fn awaits(&self, parent: &Parent) -> bool
        ensures { result ≡ is_pending_in parent.now.hash (live_run parent.now.run (state_of self.now)) }
    {
        match self.runs.live(parent.run) {
            Some(run) => run.is_pending(&parent.hash),
            None => false,
        }
    }

    // The content of the event of a run that fails; none for a run of such an event.
    fn failed_content(&self, run: u64, error: &[u8]) -> Result<Option<Bytes>, Memory>
        requires held { IsHeld self.now }
        ensures { IfOk result (λ text. text
            ≡ content_at (live_run run (state_of self.now)) error.now (state_of self.now)) }
    {
        let Some(run) = self.runs.live(run) else {
            return Ok(None);
        };
        let first = self.texts.text_or_none(run.first());
        if is_of_failure(first) {
            return Ok(None);
        }
        Ok(Some(self.content_of(run, error, first)?))
    }

    fn content_of(&self, run: &Run, error: &[u8], first: &[u8]) -> Result<Bytes, Memory>
        requires dated { run.now.moment ≤ last_moment }
        ensures { IfOk result (λ text. text ≡ failed_content (function_id run.now (state_of self.now))
            (run_text run.now.moment run.now.number) error.now first.now) }
    {
        let mut content = Bytes::from_slice(self.alloc, b"{\"function_id\":\"")?;
        content.extend_from_slice(self.function_id(run.version())?.as_slice())?;
        content.extend_from_slice(b"\",\"run_id\":\"")?;
        content.extend_from_slice(id_of(run)?.as_slice())?;
        content.extend_from_slice(b"\",\"error\":")?;
        content.extend_from_slice(error)?;
        content.extend_from_slice(b",\"event\":")?;
        content.extend_from_slice(first)?;
        content.extend_from_slice(b"}")?;
        Ok(content)
    }

    // The event of a failed run, where there is one.
    fn raise_failed<L: Ledger>(
        &mut self,
        content: Option<Bytes>,
        steps: &mut Steps<L>,
    ) -> Result<(), Memory>
        requires held { IsHeld self.old }
        ensures { OnOk result (Becomes (raise_by content (state_of self.old)) self.old self.new) }
    {
        let Some(content) = content else {
            return Ok(());
        };
        let event = self.failed_event(content)?;
        self.raise(&event, steps)
    }

    fn failed_event(&self, content: Bytes) -> Result<EventIn, Memory>
        ensures { IfOk result (λ event. event ≡ own_event failed_name content None None) }
    {
        Ok(EventIn {
            name: Bytes::from_slice(self.alloc, FAILED)?,
            content,
            id: None,
            ts: None,
            user: None,
            v: None,
        })
    }

    // An event of the server's own, which cancels nothing.
    fn raise<L: Ledger>(&mut self, event: &EventIn, steps: &mut Steps<L>) -> Result<(), Memory>
        requires held { IsHeld self.old }
        ensures { OnOk result (Becomes (raise event.now (state_of self.old)) self.old self.new) }
    {
        let number = self.add_event(event)?;
        self.follow(number, &event.name, Discovery::AtTheEnd, steps)
    }
}

// An event's text begins with its name.
fn is_of_failure(event: &[u8]) -> bool
    ensures { result ≡ is_of_failure event.now }
{
    event.starts_with(FAILED_BEGUN)
}

/// The id of a run. A number past 2^62 - 1 counts as want of memory.
pub(crate) fn id_of(run: &Run) -> Result<[u8; 36], Memory>
    requires dated { run.now.moment ≤ last_moment }
    ensures id { IfOk result (λ id. id ≡ run_text run.now.moment run.now.number) }
    ensures spent { OnErr result (2 ^ 62 ≤ run.now.number) }
{
    let number = run.number();
    if number > MOST_RUNS {
        return Err(Memory);
    }
    Ok(run_id(run.moment(), number))
}
