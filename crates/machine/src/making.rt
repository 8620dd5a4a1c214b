// Making a run: what its function and its first event decide, its rules, and its first item.
ghost use Rattle.std.specs.Prelude.{◌≡◌, ◌≤◌, ◌+◌, [], map, IfOk, OnOk};
ghost use Rattle.std.specs.Option.{option_map};
ghost use Rattle.machine.specs.Discovered.{IsDiscovered, discover_at};
ghost use Rattle.machine.specs.Held.{Becomes, IsHeld};
ghost use Rattle.machine.specs.Making.{AreDraftsFit, IsNewFit, add_draft, add_drafts, begin_run, draft_of, plan_of, planned};
ghost use Rattle.machine.specs.View.{state_of};
ghost use Rattle.machine.specs.Words.{make_at, queue_at, wants_at};
ghost use Rattle.run_model.specs.Fit.{AreGiven, IsBucketOf};
ghost use Rattle.run_model.specs.Making.{discover, first_of, has_discovery, new_item, unless};
ghost use Rattle.run_model.specs.State.{function_at, live_run};
ghost use Rattle.runs.specs.Origin.{run_of};

use crate::Parts;
use event_keys::ReadEvent;
use expr::Expr;
use functions::FunctionEntry;
use kinds::{Bucket, CancelEntry, Cell, CellLimits, Function, Item, Numbers, Parent, Rule, Shared};
use lists::{Bytes, Items, Memory};
use runs::{Origin, Run};
use std::alloc::Global;

/// The target of an item that finds out what comes next.
pub(crate) const STEP: &[u8] = b"step";

/// A cancel rule of a run that is made, before it takes its number.
#[derive(Drop)]
struct Draft {
    name: Bytes,
    cond: Option<Expr>,
    due: Option<u64>,
    bucket: Option<Bucket>,
}

/// What a function and its first event decide of a run.
#[derive(Drop)]
pub(crate) struct Plan {
    version: u64,
    cells: CellLimits,
    start: Option<Shared<Cell>>,
    shift: i64,
    rules: Items<Draft>,
}

impl Parts {
    /// A run of a function's version, with events, is made now, where there is the version: its rules take numbers,
    /// and then its first item.
    pub(crate) fn make_run(
        &mut self,
        version: u64,
        events: Numbers,
        parent: Option<Parent>,
    ) -> Result<(), Memory>
        requires held { IsHeld self.old }
        requires given { AreGiven self.old.counts.events events }
        ensures { OnOk result (Becomes
            (make_at (function_at version (state_of self.old)) events parent (state_of self.old))
            self.old self.new) }
    {
        let first = first_of(events.as_slice());
        let number = later(self.counts.runs, 1)?;
        let Some(plan) = self.plan_run(version, first)? else {
            return Ok(());
        };
        let Plan {
            version,
            cells,
            start,
            shift,
            rules,
        } = plan;
        let origin = Origin {
            number,
            moment: self.moment,
            version,
            events,
            cells,
            start,
            shift,
            parent,
        };
        self.add_rules(number, first, rules)?;
        self.add_run(origin)
    }

    // What is decided of a run that is made now, whose first event this is.
    fn plan_run(&self, version: u64, first: u64) -> Result<Option<Plan>, Memory>
        ensures { IfOk result (λ plan. plan
            ≡ option_map (planned first (state_of self.now)) (function_at version (state_of self.now))) }
    {
        let Some(entry) = self.versions.get(version) else {
            return Ok(None);
        };
        let text = self.texts.text_or_none(first);
        let plan = plan_of(self.alloc, entry, text, self.moment)?;
        Ok(Some(self.share(plan)))
    }

    // The plan, with its cells in the memory of those of a queued item, where they are equal.
    fn share(&self, plan: Plan) -> Plan
        ensures { result ≡ plan }
    {
        let Plan {
            version,
            cells,
            start,
            shift,
            rules,
        } = plan;
        let (cells, start) = self.admission.intern(cells, start);
        Plan {
            version,
            cells,
            start,
            shift,
            rules,
        }
    }

    // The run that has the next number is there from now on, with its first item.
    fn add_run(&mut self, origin: Origin) -> Result<(), Memory>
        requires held { IsHeld self.old }
        requires next { origin.number ≡ self.old.counts.runs + 1 }
        requires fit { IsNewFit (state_of self.old) (run_of origin) }
        ensures { OnOk result
            (Becomes (begin_run (run_of origin) (state_of self.old)) self.old self.new) }
    {
        self.loose.touch(origin.version, origin.events.as_slice())?;
        self.counts.runs = origin.number;
        let run = Run::new(self.alloc, origin)?;
        let item = self.item_of(&run, STEP)?;
        self.counts.entries = item.number;
        self.runs.add(run)?;
        self.admission.add(item)
    }

    // Each takes the next number.
    fn add_rules(&mut self, run: u64, first: u64, rules: Items<Draft>) -> Result<(), Memory>
        requires held { IsHeld self.old }
        requires given { first ≤ self.old.counts.events }
        requires fit { AreDraftsFit self.old.texts.texts first rules }
        ensures { OnOk result
            (Becomes (add_drafts run first rules (state_of self.old)) self.old self.new) }
    {
        for rule in rules {
            self.add_rule(run, first, rule)?;
        }
        Ok(())
    }

    fn add_rule(&mut self, run: u64, first: u64, rule: Draft) -> Result<(), Memory>
        requires held { IsHeld self.old }
        requires given { first ≤ self.old.counts.events }
        requires fit { IsBucketOf self.old.texts.texts first rule.cond rule.bucket }
        ensures { OnOk result
            (Becomes (add_draft run first rule (state_of self.old)) self.old self.new) }
    {
        let number = self.counts.next_entry()?;
        self.rules.add(Rule {
            number,
            run,
            first,
            name: rule.name,
            cond: rule.cond,
            due: rule.due,
            bucket: rule.bucket,
        })
    }

    /// An item of a run is made now, for a planned step or to find out what comes next.
    pub(crate) fn queue_new(&mut self, run: u64, target: &[u8]) -> Result<(), Memory>
        requires held { IsHeld self.old }
        ensures now { OnOk result (Becomes
            (queue_at (live_run run (state_of self.old)) target.now (state_of self.old))
            self.old self.new) }
        ensures wanting { OnOk result (self.new.wanting ≡ self.old.wanting) }
    {
        let Some(item) = self.new_item(run, target)? else {
            return Ok(());
        };
        self.counts.next_entry()?;
        self.admission.add(item)
    }

    // The item, where the run has not ended.
    fn new_item(&self, run: u64, target: &[u8]) -> Result<Option<Item>, Memory>
        ensures { IfOk result (λ item. item ≡ option_map
            (λ r. new_item r target.now (state_of self.now)) (live_run run (state_of self.now))) }
    {
        match self.runs.live(run) {
            Some(run) => Ok(Some(self.item_of(run, target)?)),
            None => Ok(None),
        }
    }

    // An item of a run that is made now.
    fn item_of(&self, run: &Run, target: &[u8]) -> Result<Item, Memory>
        ensures { IfOk result (λ item. item ≡ new_item run.now target.now (state_of self.now)) }
    {
        Ok(Item {
            number: later(self.counts.entries, 1)?,
            run: run.number(),
            target: Bytes::from_slice(self.alloc, target)?,
            attempt: 0,
            due: self.moment,
            score: run.score(),
            cells: run.cells().clone()?,
            start: start_of(run)?,
        })
    }

    /// Each run that wants to find out what comes next and has no item for that gets one, in order of run.
    pub(crate) fn discover(&mut self) -> Result<(), Memory>
        requires held { IsHeld self.old }
        ensures now { OnOk result (Becomes (discover (state_of self.old)) self.old self.new) }
        ensures none { OnOk result (self.new.wanting ≡ []) }
    {
        while self.discover_next()? {}
        Ok(())
    }

    // The first of those that may want to gets its item where it does, and says whether there was one.
    fn discover_next(&mut self) -> Result<bool, Memory>
        requires held { IsHeld self.old }
        ensures { IfOk result (λ more. IsDiscovered more self.old self.new) }
    {
        let Some(run) = self.wanting.first() else {
            return Ok(false);
        };
        self.discover_run(run)?;
        self.wanting.pop_first();
        Ok(true)
    }

    // The run of a number gets its item, where it wants to find out what comes next.
    fn discover_run(&mut self, run: u64) -> Result<(), Memory>
        requires held { IsHeld self.old }
        ensures now { OnOk result (Becomes
            (discover_at (live_run run (state_of self.old)) (state_of self.old)) self.old self.new) }
        ensures wanting { OnOk result (self.new.wanting ≡ self.old.wanting) }
    {
        if self.wants(run) {
            self.queue_new(run, STEP)
        } else {
            Ok(())
        }
    }

    fn wants(&self, run: u64) -> bool
        ensures { result ≡ wants_at run (live_run run (state_of self.now)) (state_of self.now) }
    {
        match self.runs.live(run) {
            Some(live) => live.is_wanted() && !self.has_discovery(run),
            None => false,
        }
    }

    fn has_discovery(&self, run: u64) -> bool
        ensures { result ≡ has_discovery (state_of self.now) run }
    {
        self.admission.has_item(run, STEP) || self.admission.has_call(run, STEP)
    }
}

// What a run of a function has that is made at a moment, and whose first event has this text.
fn plan_of(alloc: Global, entry: &FunctionEntry, text: &[u8], moment: u64) -> Result<Plan, Memory>
    ensures { IfOk result (λ plan. plan ≡ plan_of entry.now text.now moment) }
{
    let event = ReadEvent::read(alloc, text)?;
    let function = &entry.function;
    Ok(Plan {
        version: entry.version,
        cells: event.cells_of(alloc, function)?,
        start: event.start_of(alloc, function)?,
        shift: event.priority_shift(alloc, function.priority.as_ref())?,
        rules: drafts(alloc, function, &event, moment)?,
    })
}

fn drafts(
    alloc: Global,
    function: &Function,
    event: &ReadEvent<'_>,
    moment: u64,
) -> Result<Items<Draft>, Memory>
    ensures { IfOk result (λ ds. ds ≡ map (draft_of moment event.now) function.now.cancels) }
{
    let mut drafts = Items::with_room(alloc, function.cancels.len())?;
    for cancel in function.cancels.as_slice() {
        drafts.push(new_draft(alloc, cancel, event, moment)?)?;
    }
    Ok(drafts)
}

fn new_draft(
    alloc: Global,
    cancel: &CancelEntry,
    event: &ReadEvent<'_>,
    moment: u64,
) -> Result<Draft, Memory>
    ensures { IfOk result (λ d. d ≡ draft_of moment event.now cancel.now) }
{
    let due = match cancel.timeout {
        Some(timeout) => Some(later(moment, timeout)?),
        None => None,
    };
    Ok(Draft {
        name: cancel.event.clone()?,
        cond: cancel.cond.clone()?,
        due,
        bucket: event.bucket_of(alloc, cancel.cond.as_ref())?,
    })
}

// The throttle's cell, where the run hasn't started.
fn start_of(run: &Run) -> Result<Option<Shared<Cell>>, Memory>
    ensures { IfOk result (λ start. start ≡ unless run.now.started run.now.start) }
{
    match run.start() {
        Some(cell) if !run.has_started() => Ok(Some(cell.clone()?)),
        _ => Ok(None),
    }
}

/// A moment so many milliseconds later. One past 2^64 - 1 counts as want of memory.
pub(crate) fn later(moment: u64, span: u64) -> Result<u64, Memory>
    ensures { IfOk result (λ m. m ≡ moment + span) }
{
    match moment.checked_add(span) {
        Some(later) => Ok(later),
        None => Err(Memory),
    }
}

fn first_of(events: &[u64]) -> u64
    ensures { result ≡ first_of events.now }
{
    events.get(0).copied().unwrap_or(0)
}
