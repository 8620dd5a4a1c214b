// A step invokes a function: an event, a run of the function, and what waits for its end.
ghost use Rattle.std.specs.Prelude.{◌≡◌, true, Some, IfOk, OnOk, codes};
ghost use Rattle.std.specs.Option.{option_map};
ghost use Rattle.functions.specs.Functions.{version_of};
ghost use Rattle.json_text.specs.Text.{member_of};
ghost use Rattle.kinds.specs.declared.store.Pending.TheVariants as pending;
ghost use Rattle.machine.specs.Held.{Becomes, IsHeld};
ghost use Rattle.machine.specs.Operations.{await_child, invoke_at, invoke_current, invoke_version, make_child};
ghost use Rattle.machine.specs.View.{state_of};
ghost use Rattle.run_model.specs.Ends.{own_event};
ghost use Rattle.run_model.specs.Recording.{record_result};
ghost use Rattle.run_model.specs.Replies.{content_of, current, due_at, invoked_event, invoked_name, invoked_with, slice_of, unknown_function};
ghost use Rattle.run_model.specs.State.{function_at, live_run};
ghost use Rattle.runs.specs.Changes.{if_new, is_pending_in, naming_in, pend_in};

use crate::Parts;
use crate::making::later;
use crate::results::error_result;
use awaited::Invocation;
use json_text::{JsonFault, Kind, Tree};
use kinds::{EventIn, Numbers, Parent, Pending, StepHash, Time, error_object};
use lists::{Bytes, Memory};
use runs::Naming;
use std::alloc::Global;

/// The name of the event of an invocation.
const INVOKED: &[u8] = b"inngest/function.invoked";

impl Parts {
    /// A step waits for the end of a run that is made now, or records that there is no such function.
    pub(crate) fn invoke(
        &mut self,
        run: u64,
        hash: StepHash,
        function: &Bytes,
        payload: Option<Bytes>,
        timeout: Option<Time>,
    ) -> Result<Naming, Memory>
        requires held { IsHeld self.old }
        ensures named { IfOk result (λ n. n
            ≡ naming_in (pend_in hash pending.Invocation) (live_run run (state_of self.old))) }
        ensures now { IfOk result (λ n. Becomes (if_new n
            (invoke_at (live_run run (state_of self.old)) hash function.now payload timeout
            (state_of self.old))
            (state_of self.old)) self.old self.new) }
    {
        let naming = self.pend(run, &hash, Pending::Invocation)?;
        match naming {
            Naming::New => {
                self.invoke_current(run, hash, function, &payload, timeout)?;
                Ok(Naming::New)
            }
            Naming::Known => Ok(Naming::Known),
            Naming::Full => Ok(Naming::Full),
        }
    }

    // The step waits already.
    fn invoke_current(
        &mut self,
        run: u64,
        hash: StepHash,
        function: &Bytes,
        payload: &Option<Bytes>,
        timeout: Option<Time>,
    ) -> Result<(), Memory>
        requires held { IsHeld self.old }
        requires pending { is_pending_in hash (live_run run (state_of self.old)) ≡ true }
        ensures { OnOk result (Becomes (invoke_current (current function.now (state_of self.old))
            run hash payload.now timeout (state_of self.old)) self.old self.new) }
    {
        match self.version_of(function) {
            Some(version) => self.invoke_version(run, hash, version, payload, timeout),
            None => self.refuse_invocation(run, &hash),
        }
    }

    // The version of a current function.
    fn version_of(&self, function: &Bytes) -> Option<u64>
        ensures { result ≡ option_map version_of (current function.now (state_of self.now)) }
    {
        match self.versions.of_id(function.as_slice()) {
            Some(entry) => Some(entry.version),
            None => None,
        }
    }

    fn refuse_invocation(&mut self, run: u64, hash: &StepHash) -> Result<(), Memory>
        requires held { IsHeld self.old }
        requires pending { is_pending_in hash.now (live_run run (state_of self.old)) ≡ true }
        ensures { OnOk result (Becomes
            (record_result run hash.now unknown_function (state_of self.old)) self.old self.new) }
    {
        let error = error_object(self.alloc, b"unknown function")?;
        let text = error_result(self.alloc, error.as_slice())?;
        self.wake(run, hash, text)
    }

    fn invoke_version(
        &mut self,
        run: u64,
        hash: StepHash,
        version: u64,
        payload: &Option<Bytes>,
        timeout: Option<Time>,
    ) -> Result<(), Memory>
        requires held { IsHeld self.old }
        ensures { OnOk result (Becomes (invoke_version (function_at version (state_of self.old))
            run hash payload.now timeout (state_of self.old)) self.old self.new) }
    {
        let child = later(self.counts.runs, 1)?;
        self.make_child(run, hash, version, payload)?;
        self.add_invocation(run, hash, child, timeout)
    }

    // The event, which wakes and triggers nothing else, then the run.
    fn make_child(
        &mut self,
        run: u64,
        hash: StepHash,
        version: u64,
        payload: &Option<Bytes>,
    ) -> Result<(), Memory>
        requires held { IsHeld self.old }
        ensures { OnOk result (Becomes (make_child (function_at version (state_of self.old))
            run hash payload.now (state_of self.old)) self.old self.new) }
    {
        let event = invoked_event(self.alloc, payload)?;
        let number = self.add_event(&event)?;
        let mut events = Numbers::new(self.alloc);
        events.push(number)?;
        self.make_run(version, events, Some(Parent { run, hash }))
    }

    fn add_invocation(
        &mut self,
        run: u64,
        hash: StepHash,
        child: u64,
        timeout: Option<Time>,
    ) -> Result<(), Memory>
        requires held { IsHeld self.old }
        ensures { OnOk result
            (Becomes (await_child run hash child timeout (state_of self.old)) self.old self.new) }
    {
        let due = self.due_or_none(timeout)?;
        let number = self.counts.next_entry()?;
        self.invocations.add(Invocation {
            number,
            run,
            hash,
            child,
            due,
        })?;
        Ok(())
    }

    fn due_or_none(&self, timeout: Option<Time>) -> Result<Option<u64>, Memory>
        ensures { IfOk result (λ due. due ≡ option_map (λ t. due_at t self.now.moment) timeout) }
    {
        match timeout {
            Some(time) => Ok(Some(self.due_at(time)?)),
            None => Ok(None),
        }
    }
}

// The event of an invocation, with its payload's data.
#[tactic(auto, using(crate::proofs::Invoked::payload_read, crate::proofs::Invoked::payload_unread))]
fn invoked_event(alloc: Global, payload: &Option<Bytes>) -> Result<EventIn, Memory>
    ensures { IfOk result (λ event. event ≡ invoked_event payload.now) }
{
    let Some(payload) = payload else {
        return event_with(alloc, b"{}", None, None);
    };
    match Tree::read(alloc, payload.as_slice()) {
        Ok(tree) => event_of(alloc, &tree),
        Err(JsonFault::Memory) => Err(Memory),
        Err(JsonFault::NotJson { .. } | JsonFault::TooDeep { .. }) => {
            event_with(alloc, b"{}", None, None)
        }
    }
}

fn event_of(alloc: Global, tree: &Tree<'_>) -> Result<EventIn, Memory>
    ensures { IfOk result (λ event. event ≡ invoked_with (Some tree.now.value)) }
{
    let user = member_of(alloc, tree, b"user")?;
    let v = member_of(alloc, tree, b"v")?;
    event_with(alloc, data_of(tree), user, v)
}

// An object as it stands, and else an empty one.
fn data_of<'a>(tree: &'a Tree<'_>) -> &'a [u8]
    ensures { result.now ≡ content_of (member_of tree.now.value (codes "data")) }
{
    match tree.member(tree.root(), b"data") {
        Some(node) if tree.kind(node) == Kind::Object => tree.slice(node),
        _ => b"{}",
    }
}

fn member_of(alloc: Global, tree: &Tree<'_>, name: &[u8]) -> Result<Option<Bytes>, Memory>
    ensures { IfOk result (λ slice. slice ≡ slice_of (member_of tree.now.value name.now)) }
{
    match tree.member(tree.root(), name) {
        Some(node) => Ok(Some(Bytes::from_slice(alloc, tree.slice(node))?)),
        None => Ok(None),
    }
}

fn event_with(
    alloc: Global,
    content: &[u8],
    user: Option<Bytes>,
    v: Option<Bytes>,
) -> Result<EventIn, Memory>
    ensures { IfOk result (λ event. event ≡ own_event invoked_name content.now user v) }
{
    Ok(EventIn {
        name: Bytes::from_slice(alloc, INVOKED)?,
        content: Bytes::from_slice(alloc, content)?,
        id: None,
        ts: None,
        user,
        v,
    })
}
