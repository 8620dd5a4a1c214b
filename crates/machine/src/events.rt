// What an event does, once it is accepted: it wakes waits, and starts runs or joins windows.
ghost use Rattle.std.specs.Prelude.{◌≡◌, ◌+◌, ◌≤◌, [], find, map, IfOk, OnOk};
ghost use Rattle.std.specs.Option.{option_map};
ghost use Rattle.awaited.specs.Entries.{wait_step};
ghost use Rattle.event_texts.specs.Texts.{text_at, text_or_none};
ghost use Rattle.kinds.specs.Stores.{cancelled, woken};
ghost use Rattle.machine.specs.Held.{Becomes, IsHeld};
ghost use Rattle.machine.specs.View.{state_of};
ghost use Rattle.machine.specs.Words.{event_at, when_of};
ghost use Rattle.run_model.specs.Events.{add_event, event_with, follow, has_wait, wait_of, wake, wake_by, without_wait};
ghost use Rattle.run_model.specs.Expressions.{truth_in};
ghost use Rattle.run_model.specs.Recording.{data_result};

use crate::Parts;
use crate::recording::Discovery;
use crate::results::data_result;
use awaited::WaitStep;
use event_keys::{FreshMatcher, ReadEvent};
use intake::event_text;
use kinds::{Event, EventIn, Numbers, Steps};
use lists::{Bytes, Memory};
use std::sync::ledger::Ledger;

impl Parts {
    /// Gives an event the next number.
    pub(crate) fn add_event(&mut self, event: &EventIn) -> Result<u64, Memory>
        requires held { IsHeld self.old }
        ensures number { IfOk result (λ n. n ≡ self.old.counts.events + 1) }
        ensures now { OnOk result (Becomes
            (add_event (event_with event.now (state_of self.old)) (state_of self.old))
            self.old self.new) }
    {
        let number = self.counts.next_event()?;
        let text = event_text(self.alloc, event, number, self.moment)?;
        self.loose.events.insert(number)?;
        self.texts.add(number, text)?;
        Ok(number)
    }

    /// What follows from an event of this name: it wakes waits, and is offered to the current functions in order of
    /// version.
    pub(crate) fn follow<L: Ledger>(
        &mut self,
        number: u64,
        name: &Bytes,
        discovery: Discovery,
        steps: &mut Steps<L>,
    ) -> Result<(), Memory>
        requires held { IsHeld self.old }
        requires given { number ≤ self.old.counts.events }
        ensures { OnOk result (Becomes
            (follow (when_of discovery) (event_at number name.now (state_of self.old))
            (state_of self.old))
            self.old self.new) }
    {
        self.wake_by(number, name, discovery, steps)?;
        self.offer_to_all(number, name)
    }

    // All waits that the event meets are over, in order of number.
    fn wake_by<L: Ledger>(
        &mut self,
        number: u64,
        name: &Bytes,
        discovery: Discovery,
        steps: &mut Steps<L>,
    ) -> Result<(), Memory>
        requires held { IsHeld self.old }
        requires given { number ≤ self.old.counts.events }
        ensures { OnOk result (Becomes
            (wake_by (when_of discovery) (event_at number name.now (state_of self.old))
            (state_of self.old))
            self.old self.new) }
    {
        for wait in self.woken_by(number, name, steps)? {
            self.end_wait_by(wait, number, discovery)?;
        }
        Ok(())
    }

    fn woken_by<L: Ledger>(
        &self,
        number: u64,
        name: &Bytes,
        steps: &mut Steps<L>,
    ) -> Result<Numbers, Memory>
        requires held { IsHeld self.now }
        ensures { IfOk result (λ ns. ns ≡ woken (truth_in (state_of self.now))
            (event_at number name.now (state_of self.now)) (map wait_of self.now.waits)) }
    {
        let event = self.head_of(number, name)?;
        let fresh = ReadEvent::read(self.alloc, self.texts.text_or_none(number))?;
        let matcher = FreshMatcher {
            alloc: self.alloc,
            texts: &self.texts,
            fresh: &fresh,
        };
        self.waits.matches(&event, &matcher, steps)
    }

    /// The runs whose rules an event meets, in order.
    pub(crate) fn cancelled_by<L: Ledger>(
        &self,
        number: u64,
        name: &Bytes,
        steps: &mut Steps<L>,
    ) -> Result<Numbers, Memory>
        requires held { IsHeld self.now }
        ensures { IfOk result (λ ns. ns ≡ cancelled (truth_in (state_of self.now))
            (event_at number name.now (state_of self.now)) self.now.rules) }
    {
        let event = self.head_of(number, name)?;
        let fresh = ReadEvent::read(self.alloc, self.texts.text_or_none(number))?;
        let matcher = FreshMatcher {
            alloc: self.alloc,
            texts: &self.texts,
            fresh: &fresh,
        };
        self.rules.matches(&event, &matcher, steps)
    }

    // An event by number and name. Its text stays where it is.
    fn head_of(&self, number: u64, name: &Bytes) -> Result<Event, Memory>
        ensures { IfOk result (λ e. e ≡ record { number = number; name = name.now; text = [] }) }
    {
        Ok(Event {
            number,
            name: name.clone()?,
            text: Bytes::new(self.alloc),
        })
    }

    // A wait is over with an event.
    fn end_wait_by(&mut self, wait: u64, event: u64, discovery: Discovery) -> Result<(), Memory>
        requires held { IsHeld self.old }
        ensures { OnOk result (Becomes
            (wake (when_of discovery) (data_result (text_or_none (text_at event self.old.texts.texts)))
            wait (state_of self.old)) self.old self.new) }
    {
        let result = data_result(self.alloc, self.texts.text_or_none(event))?;
        let Some(waiting) = self.take_wait(wait) else {
            return Ok(());
        };
        self.wake(waiting.run, &waiting.hash, result)?;
        self.discovered(discovery)
    }

    /// A wait is over. Its step is the answer.
    pub(crate) fn take_wait(&mut self, number: u64) -> Option<WaitStep>
        requires held { IsHeld self.old }
        ensures step { result ≡ option_map wait_step (find (has_wait number) self.old.waits) }
        ensures now { Becomes (without_wait number (state_of self.old)) self.old self.new }
    {
        self.waits.remove(number)
    }
}
