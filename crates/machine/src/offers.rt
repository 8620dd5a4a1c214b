// Events are offered to functions: a function makes a run of one, or gathers it in a window.
ghost use Rattle.std.specs.Prelude.{◌≡◌, ◌≤◌, IfOk, OnOk};
ghost use Rattle.std.specs.List.{list_any, slice_get};
ghost use Rattle.std.specs.Option.{option_and_then, option_copied, option_map};
ghost use Rattle.event_keys.specs.Expressions.{holds_over};
ghost use Rattle.machine.specs.Held.{Becomes, IsHeld};
ghost use Rattle.machine.specs.Offers.{IsOffer, IsOfferAt, IsOfferRight, IsRuleOf, events_in, gather_at, is_trigger, joined_at, last_entry, placed_at, take_offer, value_by, without_key};
ghost use Rattle.machine.specs.Numbers.{AreJoined};
ghost use Rattle.machine.specs.View.{state_of};
ghost use Rattle.machine.specs.Words.{event_at};
ghost use Rattle.run_model.specs.Events.{key_of, offer_to_all, window_rule_of};
ghost use Rattle.run_model.specs.State.{function_at};

use crate::Parts;
use crate::making::later;
use crate::numbers::NumberSet;
use awaited::Placed;
use event_keys::ReadEvent;
use expr::Expr;
use functions::FunctionEntry;
use kinds::{Batch, Debounce, Function, Numbers, Trigger, Window, WindowRule};
use lists::{Bytes, Memory};
use std::alloc::Global;

/// What becomes of an event that is offered to a function.
#[derive(Drop)]
enum Offer {
    /// The function isn't triggered.
    Nothing,
    /// A run of its own, of this version.
    Run {
        version: u64,
    },
    /// A window of this version, rule and value.
    Window {
        version: u64,
        rule: WindowRule,
        value: Bytes,
    },
}

impl Parts {
    /// Offers an event to the current functions in order of version.
    pub(crate) fn offer_to_all(&mut self, number: u64, name: &Bytes) -> Result<(), Memory>
        requires held { IsHeld self.old }
        requires given { number ≤ self.old.counts.events }
        ensures { OnOk result (Becomes (offer_to_all self.old.versions.current
            (event_at number name.now (state_of self.old)) (state_of self.old)) self.old self.new) }
    {
        for place in 0..self.versions.current().len() {
            let offer = self.offer_at(place, number, name)?;
            self.take_offer(offer, number)?;
        }
        Ok(())
    }

    // What becomes of an event at a current function.
    fn offer_at(&self, place: usize, number: u64, name: &Bytes) -> Result<Offer, Memory>
        ensures { IfOk result (IsOfferAt (slice_get self.now.versions.current place)
            (event_at number name.now (state_of self.now))) }
    {
        match self.versions.current().get(place) {
            Some(entry) => self.offer(entry, number, name),
            None => Ok(Offer::Nothing),
        }
    }

    fn offer(&self, entry: &FunctionEntry, number: u64, name: &Bytes) -> Result<Offer, Memory>
        ensures { IfOk result
            (IsOffer entry.now (event_at number name.now (state_of self.now))) }
    {
        let text = self.texts.text_or_none(number);
        if !is_triggered(self.alloc, &entry.function, name, text)? {
            return Ok(Offer::Nothing);
        }
        match window_rule(&entry.function) {
            None => Ok(Offer::Run {
                version: entry.version,
            }),
            Some(rule) => Ok(Offer::Window {
                version: entry.version,
                rule,
                value: window_value(self.alloc, &entry.function, text)?,
            }),
        }
    }

    fn take_offer(&mut self, offer: Offer, event: u64) -> Result<(), Memory>
        requires held { IsHeld self.old }
        requires given { event ≤ self.old.counts.events }
        requires right { IsOfferRight (state_of self.old) offer }
        ensures { OnOk result (Becomes (take_offer offer event (state_of self.old)) self.old self.new) }
    {
        match offer {
            Offer::Nothing => Ok(()),
            Offer::Run { version } => {
                let mut events = Numbers::new(self.alloc);
                events.push(event)?;
                self.make_run(version, events, None)
            }
            Offer::Window {
                version,
                rule,
                value,
            } => self.gather(version, &rule, value, event),
        }
    }

    // An event opens or joins a window. A full one makes its run at once.
    fn gather(
        &mut self,
        version: u64,
        rule: &WindowRule,
        value: Bytes,
        event: u64,
    ) -> Result<(), Memory>
        requires held { IsHeld self.old }
        requires given { event ≤ self.old.counts.events }
        requires right { IsRuleOf (function_at version (state_of self.old)) rule.now }
        ensures { OnOk result (Becomes
            (gather_at (function_at version (state_of self.old)) rule.now value event
            (state_of self.old))
            self.old self.new) }
    {
        let placed = self.join(version, rule, value, event)?;
        let Placed::Full { events, .. } = placed else {
            return Ok(());
        };
        self.make_run(version, events, None)
    }

    // The window, where it stays, takes the event, and the next number where it is opened.
    fn join(
        &mut self,
        version: u64,
        rule: &WindowRule,
        value: Bytes,
        event: u64,
    ) -> Result<Placed, Memory>
        requires held { IsHeld self.old }
        requires given { event ≤ self.old.counts.events }
        requires right { IsRuleOf (function_at version (state_of self.old)) rule.now }
        ensures placed { IfOk result
            (λ p. p ≡ placed_at version rule.now value event (state_of self.old)) }
        ensures now { OnOk result (Becomes
            (joined_at version rule.now value event (state_of self.old)) self.old self.new) }
    {
        let number = later(self.counts.entries, 1)?;
        let key = (version, value);
        self.loose.versions.insert(version)?;
        self.loose.events.insert(event)?;
        touch_events(&mut self.loose.events, self.windows.find(&key))?;
        let placed = self
            .windows
            .offer(version, rule, &key.1, event, self.moment, number)?;
        self.counts.entries = last_entry(&placed, self.counts.entries, number);
        Ok(placed)
    }
}

// The events of a window are touched, where there is one.
fn touch_events(touched: &mut NumberSet, window: Option<&Window>) -> Result<(), Memory>
    ensures { OnOk result (AreJoined (events_in (option_copied window.entry)) touched.old touched.new) }
{
    match window {
        Some(Window::Debounce { event, .. }) => touched.insert(*event),
        Some(Window::Batch { events, .. }) => touched.insert_all(events.as_slice()),
        None => Ok(()),
    }
}

// The last number that was given: a window that is opened takes the next.
fn last_entry(placed: &Placed, before: u64, number: u64) -> u64
    ensures { result ≡ last_entry placed.now before number }
{
    match placed {
        Placed::Opened => number,
        Placed::Joined | Placed::Full { .. } => before,
    }
}

// Whether an event triggers a function.
fn is_triggered(
    alloc: Global,
    function: &Function,
    name: &Bytes,
    text: &[u8],
) -> Result<bool, Memory>
    ensures { IfOk result (λ b. b ≡ list_any (is_trigger name.now text.now) function.now.triggers) }
{
    for trigger in function.triggers.as_slice() {
        if is_triggered_by(alloc, trigger, name, text)? {
            return Ok(true);
        }
    }
    Ok(false)
}

fn is_triggered_by(
    alloc: Global,
    trigger: &Trigger,
    name: &Bytes,
    text: &[u8],
) -> Result<bool, Memory>
    ensures { IfOk result (λ b. b ≡ is_trigger name.now text.now trigger.now) }
{
    if trigger.event == *name {
        holds(alloc, trigger.cond.as_ref(), text)
    } else {
        Ok(false)
    }
}

// An absent condition is true, and the text isn't read for it.
fn holds(alloc: Global, cond: Option<&Expr>, text: &[u8]) -> Result<bool, Memory>
    ensures { IfOk result (λ b. b ≡ holds_over (option_copied cond.entry) text.now) }
{
    match cond {
        Some(expr) => ReadEvent::read(alloc, text)?.holds(alloc, Some(expr)),
        None => Ok(true),
    }
}

// How a function gathers events, where it does. The rule's key stays with the function.
fn window_rule(function: &Function) -> Option<WindowRule>
    ensures { result ≡ option_map without_key (window_rule_of function.now) }
{
    if let Some(debounce) = &function.debounce {
        return Some(WindowRule::Debounce(Debounce {
            period: debounce.period,
            timeout: debounce.timeout,
            key: None,
        }));
    }
    let batch = function.batch.as_ref()?;
    Some(WindowRule::Batch(Batch {
        size: batch.size,
        timeout: batch.timeout,
        key: None,
    }))
}

// The value of the key by which a function gathers events.
fn window_value(alloc: Global, function: &Function, text: &[u8]) -> Result<Bytes, Memory>
    ensures { IfOk result (λ value. value ≡ value_by (window_rule_of function.now) text.now) }
{
    match window_key(function) {
        Some(key) => ReadEvent::read(alloc, text)?.key_value(alloc, Some(key)),
        None => Ok(Bytes::new(alloc)),
    }
}

fn window_key(function: &Function) -> Option<&Expr>
    ensures { option_copied result ≡ option_and_then key_of (window_rule_of function.now) }
{
    match (&function.debounce, &function.batch) {
        (Some(debounce), _) => debounce.key.as_ref(),
        (None, Some(batch)) => batch.key.as_ref(),
        (None, None) => None,
    }
}
