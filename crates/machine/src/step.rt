// One step: time goes on, the input acts, what may be issued is, and what nothing names any more goes.
ghost use Rattle.std.specs.Prelude.{◌≡◌, ◌<◌, ◌^◌, ◌++◌, ◌∷◌, [], IfOk, OnOk};
ghost use Rattle.kinds.specs.Answer.{ids_answer};
ghost use Rattle.kinds.specs.Cells.{IsStart};
ghost use Rattle.kinds.specs.declared.out.Out.TheVariants.{Answer};
ghost use Rattle.machine.specs.Held.{Becomes, IsHeld, IsReady};
ghost use Rattle.machine.specs.Steps.{due_now, first_item, without_first};
ghost use Rattle.machine.specs.View.{state_of};
ghost use Rattle.machine.specs.Words.{answering};
ghost use Rattle.run_model.specs.Fit.{AreInRange, HasOwnNumbers, IsAside, IsInRange};
ghost use Rattle.run_model.specs.Machine.{Accepts, act, count_input, is_changed, registered_answer, reopen, requeue_found, step, with_functions};
ghost use Rattle.run_model.specs.Making.{queue};
ghost use Rattle.run_model.specs.Requests.{cancel_found, on_events};
ghost use Rattle.run_model.specs.State.{live_run};

use crate::machine::LAST_MOMENT;
use crate::recording::Discovery;
use crate::replies::has_recorded;
use crate::{Machine, Parts};
use kinds::{App, EventIn, Input, Item, Out, Steps, ids_answer};
use lists::{Bytes, Items, Memory};
use std::alloc::Global;
use std::sync::ledger::Ledger;

impl Machine {
    /// Takes one input, and answers the machine after it with what is to be said, in order. Want of memory
    /// spends the machine.
    pub fn step<L: Ledger>(
        self,
        input: Input,
        steps: &mut Steps<L>,
    ) -> Result<(Self, Items<Out>), Memory>
        requires accepted { Accepts self input }
        requires ranges { IsInRange input }
        ensures { IfOk result
            (λ answer. (answer.0 ≡ (step self input).state) × (answer.1 ≡ (step self input).outs)) }
    {
        let Machine { mut parts } = self;
        let outs = parts.step(input, steps)?;
        Ok((Machine { parts }, outs))
    }
}

impl Parts {
    fn step<L: Ledger>(&mut self, input: Input, steps: &mut Steps<L>) -> Result<Items<Out>, Memory>
        requires ready { IsReady self.old }
        requires accepted { Accepts (state_of self.old) input }
        requires ranges { IsInRange input }
        ensures outs { IfOk result (λ outs. outs ≡ (step (state_of self.old) input).outs) }
        ensures state { OnOk result (state_of self.new ≡ (step (state_of self.old) input).state) }
        ensures ready { OnOk result (IsReady self.new) }
    {
        let mut outs = Items::new(self.alloc);
        let moment = self.moment.max(input.at().min(LAST_MOMENT));
        self.count_input();
        self.advance(moment, &mut outs, steps)?;
        self.act(input, &mut outs, steps)?;
        self.settle(&mut outs, steps)?;
        self.tidy()?;
        Ok(outs)
    }

    fn count_input(&mut self)
        requires held { IsHeld self.old }
        requires room { self.old.counts.inputs < 2 ^ 61 }
        ensures { Becomes (count_input (state_of self.old)) self.old self.new }
    {
        self.counts.inputs += 1;
    }

    // What an input does.
    #[tactic(auto, unfolding(run_model::specs::Machine::act))]
    fn act<L: Ledger>(
        &mut self,
        input: Input,
        outs: &mut Items<Out>,
        steps: &mut Steps<L>,
    ) -> Result<(), Memory>
        requires held { IsHeld self.old }
        requires apart { HasOwnNumbers (state_of self.old) }
        requires ranges { IsInRange input }
        ensures state { OnOk result (Becomes (act input (state_of self.old)).state self.old self.new) }
        ensures outs { OnOk result (outs.new ≡ outs.old ++ (act input (state_of self.old)).outs) }
    {
        match input {
            Input::Events { events, .. } => self.take_events(events.as_slice(), outs, steps),
            Input::Register { app, .. } => self.on_register(app, outs),
            Input::Reply { call, reply, .. } => self.on_reply(call, &reply, steps),
            Input::CallFailed { call, .. } => self.on_call_failed(call, steps),
            Input::Tick { .. } => Ok(()),
            Input::Cancel { run, .. } => self.on_cancel(run, outs),
            Input::Reopened { .. } => self.reopen(),
        }
    }

    // The events of a request, answered by their numbers.
    fn take_events<L: Ledger>(
        &mut self,
        events: &[EventIn],
        outs: &mut Items<Out>,
        steps: &mut Steps<L>,
    ) -> Result<(), Memory>
        requires held { IsHeld self.old }
        ensures state { OnOk result
            (Becomes (on_events events.now (answering (state_of self.old))).state self.old self.new) }
        ensures outs { OnOk result (outs.new
            ≡ outs.old ++ ids_answer
            (on_events events.now (answering (state_of self.old))).numbers ∷ []) }
    {
        let numbers = self.on_events(events, steps)?;
        outs.push(ids_answer(self.alloc, numbers.as_slice())?)
    }

    // The functions of an application, answered by whether anything changed.
    fn on_register(&mut self, app: App, outs: &mut Items<Out>) -> Result<(), Memory>
        requires held { IsHeld self.old }
        requires ranges { AreInRange app }
        ensures state { OnOk result
            (Becomes (with_functions app (state_of self.old)) self.old self.new) }
        ensures outs { OnOk result (outs.new
            ≡ outs.old ++ registered_answer (is_changed app (state_of self.old)) ∷ []) }
    {
        let modified = self.register(app)?;
        outs.push(registered_answer(self.alloc, modified)?)
    }

    // The functions of an application take the place of those that it had.
    fn register(&mut self, app: App) -> Result<bool, Memory>
        requires held { IsHeld self.old }
        requires ranges { AreInRange app }
        ensures modified { IfOk result (λ b. b ≡ is_changed app (state_of self.old)) }
        ensures state { OnOk result
            (Becomes (with_functions app (state_of self.old)) self.old self.new) }
    {
        let touched = self.versions.current_versions()?;
        self.loose.versions.insert_all(touched.as_slice())?;
        let change = self.versions.register(app, self.counts.versions)?;
        self.counts.versions = change.versions;
        Ok(change.modified)
    }

    // A run is cancelled. One that has ended by the advance of this step is answered all the same.
    fn on_cancel(&mut self, run: u64, outs: &mut Items<Out>) -> Result<(), Memory>
        requires held { IsHeld self.old }
        ensures state { OnOk result (Becomes
            (cancel_found (live_run run (state_of self.old)) (state_of self.old)) self.old self.new) }
        ensures outs { OnOk result (outs.new ≡ outs.old ++ Answer 204 [] ∷ []) }
    {
        self.cancel_run(run, Discovery::AtOnce)?;
        outs.push(Out::Answer {
            status: 204,
            body: Bytes::new(self.alloc),
        })
    }

    // No call is open any more.
    fn reopen(&mut self) -> Result<(), Memory>
        requires held { IsHeld self.old }
        requires apart { HasOwnNumbers (state_of self.old) }
        ensures { OnOk result (Becomes (reopen (state_of self.old)) self.old self.new) }
    {
        while let Some(item) = self.take_call()? {
            self.requeue(item)?;
        }
        self.discover()
    }

    // The open call of least number is open no more. Gives the item that it was made for.
    fn take_call(&mut self) -> Result<Option<Item>, Memory>
        requires held { IsHeld self.old }
        ensures item { IfOk result (λ item. item ≡ first_item (state_of self.old)) }
        ensures now { OnOk result (Becomes (without_first (state_of self.old)) self.old self.new) }
    {
        let Some(issue) = self.admission.take_first()? else {
            return Ok(None);
        };
        self.wanting.insert(issue.item.run)?;
        self.loose.runs.insert(issue.item.run)?;
        Ok(Some(issue.item))
    }

    // The item of an open call is queued again as it was, due now, or where its step is recorded it goes.
    fn requeue(&mut self, item: Item) -> Result<(), Memory>
        requires held { IsHeld self.old }
        requires aside { IsAside item (state_of self.old) }
        requires start { IsStart item.start }
        ensures { OnOk result (Becomes
            (requeue_found item (live_run item.run (state_of self.old)) (state_of self.old))
            self.old self.new) }
    {
        let Some(live) = self.runs.live(item.run) else {
            return Ok(());
        };
        if has_recorded(live, item.target.as_slice()) {
            return self.want(item.run);
        }
        self.queue_now(item)
    }

    fn queue_now(&mut self, item: Item) -> Result<(), Memory>
        requires held { IsHeld self.old }
        requires aside { IsAside item (state_of self.old) }
        requires start { IsStart item.start }
        ensures { OnOk result (Becomes
            (queue (due_now item (state_of self.old)) (state_of self.old)) self.old self.new) }
    {
        self.admission.add(due_at(item, self.moment))
    }
}

// The same item, due at a moment.
fn due_at(item: Item, due: u64) -> Item
    ensures { result ≡ record item { due = due } }
{
    Item { due, ..item }
}

// The answer to a registration: whether the list of current functions is another than before.
fn registered_answer(alloc: Global, modified: bool) -> Result<Out, Memory>
    ensures { IfOk result (λ out. out ≡ registered_answer modified) }
{
    let mut body = Bytes::from_slice(alloc, b"{\"ok\":true,\"modified\":")?;
    if modified {
        body.extend_from_slice(b"true")?;
    } else {
        body.extend_from_slice(b"false")?;
    }
    body.extend_from_slice(b"}")?;
    Ok(Out::Answer { status: 200, body })
}
