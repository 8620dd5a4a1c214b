// Calls are made while an item may be issued, the least by score and number first.
ghost use Rattle.std.specs.Prelude.{◌≡◌, ◌≤◌, ◌+◌, ◌++◌, map, Some, IfOk, OnOk};
ghost use Rattle.kinds.specs.Moments.{last_moment};
ghost use Rattle.machine.specs.Held.{Becomes, IsHeld};
ghost use Rattle.machine.specs.View.{state_of};
ghost use Rattle.machine.specs.Words.{issue_at, issued_at, said_at, with_outs};
ghost use Rattle.run_model.specs.Fit.{HasOwnNumbers};
ghost use Rattle.run_model.specs.Making.{text_or_none};
ghost use Rattle.run_model.specs.Settle.{body_of, call_with, item_at, next_issued, settle};
ghost use Rattle.run_model.specs.State.{text_of};
ghost use Rattle.sdk_call.specs.Body.{call_path};

use crate::Parts;
use crate::ends::id_of;
use crate::results::copied;
use kinds::{Function, Item, Out, Steps};
use lists::{Items, Memory};
use runs::Run;
use sdk_call::{CallParts, CallText, call_text};
use std::sync::ledger::Ledger;

impl Parts {
    pub(crate) fn settle<L: Ledger>(
        &mut self,
        outs: &mut Items<Out>,
        steps: &mut Steps<L>,
    ) -> Result<(), Memory>
        requires held { IsHeld self.old }
        requires apart { HasOwnNumbers (state_of self.old) }
        requires now { self.old.admission.moment ≡ self.old.moment }
        ensures state { OnOk result
            (Becomes (settle (with_outs outs.old (state_of self.old))).state self.old self.new) }
        ensures outs { OnOk result
            (outs.new ≡ (settle (with_outs outs.old (state_of self.old))).outs) }
    {
        while let Some(number) = self.next_number(steps) {
            self.issue(number, outs)?;
        }
        Ok(())
    }

    // The item that is issued next.
    fn next_number<L: Ledger>(&mut self, steps: &mut Steps<L>) -> Option<u64>
        requires now { self.old.admission.moment ≡ self.old.moment }
        ensures next { result ≡ next_issued (state_of self.new) }
        ensures same { self.new ≡ self.old }
    {
        self.admission.next(steps)
    }

    // The call of an item is made.
    fn issue(&mut self, number: u64, outs: &mut Items<Out>) -> Result<(), Memory>
        requires held { IsHeld self.old }
        requires apart { HasOwnNumbers (state_of self.old) }
        requires now { self.old.admission.moment ≡ self.old.moment }
        requires next { next_issued (state_of self.old) ≡ Some number }
        ensures state { OnOk result
            (Becomes (issued_at number outs.old (state_of self.old)).state self.old self.new) }
        ensures outs { OnOk result (outs.new ≡ (issued_at number outs.old (state_of self.old)).outs) }
    {
        self.say_call(number, outs)?;
        self.make_call(number)
    }

    // The item's call is open from now on.
    fn make_call(&mut self, number: u64) -> Result<(), Memory>
        requires held { IsHeld self.old }
        requires apart { HasOwnNumbers (state_of self.old) }
        requires now { self.old.admission.moment ≡ self.old.moment }
        requires next { next_issued (state_of self.old) ≡ Some number }
        ensures { OnOk result (Becomes
            (issue_at (item_at number (state_of self.old)) (state_of self.old)) self.old self.new) }
    {
        let Some(item) = self.admission.item(number) else {
            return Ok(());
        };
        let run = item.run;
        let target = item.target.clone()?;
        let call = self.counts.next_call()?;
        let limit = self.counts.next_entry()?;
        self.admission.issue(number, call, limit)?;
        self.runs.call(run, target.as_slice());
        Ok(())
    }

    fn say_call(&self, number: u64, outs: &mut Items<Out>) -> Result<(), Memory>
        requires held { IsHeld self.now }
        ensures { OnOk result (outs.new ≡ outs.old
            ++ said_at (item_at number (state_of self.now)) (self.now.counts.calls + 1)
            (state_of self.now)) }
    {
        let Some(item) = self.admission.item(number) else {
            return Ok(());
        };
        let Some(run) = self.runs.live(item.run) else {
            return Ok(());
        };
        let Some(entry) = self.versions.get(run.version()) else {
            return Ok(());
        };
        let call = self.counts.coming_call()?;
        outs.push(self.call_of(&entry.function, run, item, call)?)
    }

    // What is said of a call.
    fn call_of(&self, function: &Function, run: &Run, item: &Item, call: u64) -> Result<Out, Memory>
        requires dated { run.now.moment ≤ last_moment }
        ensures { IfOk result (λ out.
            out ≡ call_with function.now run.now item.now call (state_of self.now)) }
    {
        let text = self.text_of_call(function, run, item)?;
        Ok(Out::Call {
            call,
            function: function.id.clone()?,
            target: item.target.clone()?,
            run: run.number(),
            attempt: item.attempt,
            steps: run.steps().len() as u64,
            events: copied(self.alloc, run.events())?,
            host: function.host.clone()?,
            port: function.port,
            path: text.path,
            body: text.body,
        })
    }

    fn text_of_call(&self, function: &Function, run: &Run, item: &Item) -> Result<CallText, Memory>
        requires dated { run.now.moment ≤ last_moment }
        ensures path { IfOk result (λ text. text.path
            ≡ call_path function.now.path function.now.query function.now.id item.now.target) }
        ensures body { IfOk result (λ text. text.body ≡ body_of run.now item.now (state_of self.now)) }
    {
        let events = self.texts_of(run.events())?;
        let parts = CallParts {
            function,
            target: item.target.as_slice(),
            run_id: id_of(run)?,
            attempt: item.attempt,
            planned: run.has_planned(),
            events: events.as_slice(),
            steps: run.steps(),
        };
        call_text(self.alloc, &parts)
    }

    fn texts_of(&self, events: &[u64]) -> Result<Vec<&[u8]>, Memory>
        ensures { IfOk result (λ texts. map (λ text. text.now) texts.items
            ≡ map (λ n. text_or_none (text_of n (state_of self.now))) events.now) }
    {
        let mut texts = Vec::with_capacity(self.alloc, events.len())?;
        for event in events {
            texts.push(self.texts.text_or_none(*event))?;
        }
        Ok(texts)
    }
}
