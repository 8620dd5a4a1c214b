// What can be looked at between two inputs.
ghost use Rattle.std.specs.Prelude.{◌≡◌, IfOk, OnOk};
ghost use Rattle.std.specs.Option.{option_map};
ghost use Rattle.kinds.specs.Queue.{sooner};
ghost use Rattle.lists.specs.Entries.{add_numbers};
ghost use Rattle.machine.specs.Words.{open_call, runs_of, view_of};
ghost use Rattle.run_model.specs.Ends.{id_at};
ghost use Rattle.run_model.specs.Next.{first_open, is_begun, next_moment, run_view, status_of, step_result, view_ended};
ghost use Rattle.run_model.specs.State.{function_at, live_run};

use crate::Machine;
use kinds::{Numbers, RunStatus, StepHash};
use lists::Memory;
use runs::Run;
use std::alloc::Global;
use std::collections::BTreeSet;

/// A run that has not ended, or is among the last thousand that have.
#[derive(Clone, Copy)]
pub struct RunView<'a> {
    /// The run's number.
    pub number: u64,
    /// When it was made, in milliseconds since 1970.
    pub moment: u64,
    /// The id of its function.
    pub function: &'a [u8],
    /// Where it stands.
    pub status: RunStatus,
    /// The numbers of its events, in order.
    pub events: &'a [u64],
}

/// A call that is open, as who replies to it needs it.
#[derive(Clone, Copy, Debug, PartialEq, Eq)]
pub struct OpenCall {
    /// The call's number.
    pub call: u64,
    /// Whether steps of its run are recorded.
    pub has_results: bool,
}

impl Machine {
    /// When there is something to do next, in milliseconds since 1970: the least of the dues of what is awaited,
    /// the dues of items that are to come, and the moments at which throttles let due items start whose cells are
    /// free. Takes no memory.
    pub fn next_moment(&self) -> Option<u64>
        ensures { result ≡ next_moment self.now }
    {
        let parts = self.parts();
        earliest(parts.next_due(), parts.admission.next_item())
    }

    /// A run that has not ended, or is among the last thousand that have. Takes no memory.
    pub fn run_view(&self, number: u64) -> Option<RunView<'_>>
        ensures { option_map view_of result ≡ run_view number self.now }
    {
        match self.parts.runs.live(number) {
            Some(run) => Some(RunView {
                number: run.number(),
                moment: run.moment(),
                function: self.id_at(run.version()),
                status: status_of(run),
                events: run.events(),
            }),
            None => self.ended_view(number),
        }
    }

    fn id_at(&self, version: u64) -> &[u8]
        ensures { result.now ≡ id_at (function_at version self.now) }
    {
        match self.parts.versions.get(version) {
            Some(entry) => entry.function.id.as_slice(),
            None => &[],
        }
    }

    fn ended_view(&self, number: u64) -> Option<RunView<'_>>
        ensures { option_map view_of result ≡ view_ended number self.now }
    {
        let ended = self.parts.ended.get_last(number)?;
        Some(RunView {
            number: ended.run,
            moment: ended.moment,
            function: ended.function.as_slice(),
            status: ended.status,
            events: ended.events.as_slice(),
        })
    }

    /// The open call of least number. Takes no memory.
    pub fn first_call(&self) -> Option<OpenCall>
        ensures { result ≡ option_map (open_call self.now) (first_open self.now.issues) }
    {
        let issue = self.parts.admission.issues().next()?;
        Some(OpenCall {
            call: issue.call,
            has_results: self.has_steps(issue.item.run),
        })
    }

    // Whether the run hasn't ended and has recorded steps.
    fn has_steps(&self, number: u64) -> bool
        ensures { result ≡ is_begun (live_run number self.now) }
    {
        match self.parts.runs.live(number) {
            Some(run) => !run.steps().is_empty(),
            None => false,
        }
    }

    /// The result of a recorded step of a run that has not ended. Takes no memory.
    pub fn step_result(&self, number: u64, hash: &StepHash) -> Option<&[u8]>
        ensures { option_map (λ text. text.now) result ≡ step_result number hash.now self.now }
    {
        self.parts.runs.live(number)?.result_of(hash)
    }

    /// The runs of an event that can be viewed, in order of number.
    pub fn runs_of(&self, event: u64) -> Result<Numbers, Memory>
        ensures { IfOk result (λ ns. ns ≡ runs_of event self.now) }
    {
        let parts = self.parts();
        let live = parts.runs.of_event(event)?;
        let ended = parts.ended.of_event(event)?;
        let mut runs = BTreeSet::new(parts.alloc);
        add_all(&mut runs, live.as_slice())?;
        add_all(&mut runs, ended.as_slice())?;
        to_numbers(parts.alloc, &runs)
    }
}

fn status_of(run: &Run) -> RunStatus
    ensures { result ≡ status_of run.now }
{
    if run.has_started() {
        RunStatus::Running
    } else {
        RunStatus::Queued
    }
}

fn earliest(one: Option<u64>, other: Option<u64>) -> Option<u64>
    ensures { result ≡ sooner one other }
{
    match (one, other) {
        (Some(one), Some(other)) => Some(one.min(other)),
        (Some(one), None) => Some(one),
        (None, other) => other,
    }
}

fn add_all(set: &mut BTreeSet<u64>, numbers: &[u64]) -> Result<(), Memory>
    ensures { OnOk result (set.new.keys ≡ add_numbers numbers.now set.old.keys) }
{
    for number in numbers {
        set.insert(*number)?;
    }
    Ok(())
}

fn to_numbers(alloc: Global, set: &BTreeSet<u64>) -> Result<Numbers, Memory>
    ensures { IfOk result (λ ns. ns ≡ set.now.keys) }
{
    let mut numbers = Numbers::new(alloc);
    for number in set.iter() {
        numbers.push(*number)?;
    }
    Ok(numbers)
}
