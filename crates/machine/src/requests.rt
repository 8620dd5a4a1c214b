// What the events of a request do.
ghost use Rattle.std.specs.Prelude.{◌≡◌, ◌+◌, ◌≤◌, find, None, IfOk, OnOk};
ghost use Rattle.intake.specs.Number.{has_number};
ghost use Rattle.machine.specs.Held.{Becomes, IsHeld};
ghost use Rattle.machine.specs.View.{state_of};
ghost use Rattle.machine.specs.Words.{answering, event_at, note_id, number_for};
ghost use Rattle.run_model.specs.Events.{event_with};
ghost use Rattle.run_model.specs.Requests.{accept, cancel_by, on_event, on_events, repeats};

use crate::Parts;
use crate::recording::Discovery;
use kinds::{EventIn, Numbers, Steps};
use lists::{Bytes, Memory};
use std::sync::ledger::Ledger;

impl Parts {
    /// Takes the events of a request in order, and answers the number of each.
    pub(crate) fn on_events<L: Ledger>(
        &mut self,
        events: &[EventIn],
        steps: &mut Steps<L>,
    ) -> Result<Numbers, Memory>
        requires held { IsHeld self.old }
        ensures numbers { IfOk result (λ ns.
            ns ≡ (on_events events.now (answering (state_of self.old))).numbers) }
        ensures state { OnOk result
            (Becomes (on_events events.now (answering (state_of self.old))).state self.old self.new) }
    {
        let mut numbers = Numbers::new(self.alloc);
        for event in events {
            numbers.push(self.on_event(event, steps)?)?;
        }
        Ok(numbers)
    }

    // A repeated event is answered with the number of the first, and changes nothing.
    fn on_event<L: Ledger>(&mut self, event: &EventIn, steps: &mut Steps<L>) -> Result<u64, Memory>
        requires held { IsHeld self.old }
        ensures number { IfOk result (λ n. n ≡ number_for event.now (state_of self.old)) }
        ensures state { OnOk result
            (Becomes (on_event event.now (answering (state_of self.old))).state self.old self.new) }
    {
        match self.repeats(event) {
            Some(number) => Ok(number),
            None => self.accept(event, steps),
        }
    }

    // The number of the event that this one repeats.
    fn repeats(&self, event: &EventIn) -> Option<u64>
        ensures { result ≡ repeats event.now (state_of self.now) }
    {
        let id = event.id.as_ref()?;
        self.seen.find(id.as_slice(), self.moment)
    }

    fn accept<L: Ledger>(&mut self, event: &EventIn, steps: &mut Steps<L>) -> Result<u64, Memory>
        requires held { IsHeld self.old }
        requires new { repeats event.now (state_of self.old) ≡ None }
        ensures number { IfOk result (λ n. n ≡ self.old.counts.events + 1) }
        ensures state { OnOk result (Becomes
            (accept (event_with event.now (state_of self.old)) event.now.id (state_of self.old))
            self.old self.new) }
    {
        let number = self.add_event(event)?;
        self.remember(event, number)?;
        self.cancel_by(number, &event.name, steps)?;
        self.follow(number, &event.name, Discovery::AtOnce, steps)?;
        Ok(number)
    }

    // The id of the event of a number, where it has one, is remembered.
    fn remember(&mut self, event: &EventIn, number: u64) -> Result<(), Memory>
        requires held { IsHeld self.old }
        requires given { number ≤ self.old.counts.events }
        requires new { repeats event.now (state_of self.old) ≡ None }
        requires fresh { find (has_number number) self.old.seen ≡ None }
        ensures { OnOk result
            (Becomes (note_id event.now.id number (state_of self.old)) self.old self.new) }
    {
        match &event.id {
            Some(id) => self.seen.note(id.as_slice(), number, self.moment),
            None => Ok(()),
        }
    }

    // The runs whose rules the event meets are cancelled, in order of run.
    fn cancel_by<L: Ledger>(
        &mut self,
        number: u64,
        name: &Bytes,
        steps: &mut Steps<L>,
    ) -> Result<(), Memory>
        requires held { IsHeld self.old }
        ensures { OnOk result (Becomes
            (cancel_by (event_at number name.now (state_of self.old)) (state_of self.old))
            self.old self.new) }
    {
        for run in self.cancelled_by(number, name, steps)? {
            self.cancel_run(run, Discovery::AtOnce)?;
        }
        Ok(())
    }
}
