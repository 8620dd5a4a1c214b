// The store of accepted events, and of those that count.
ghost use Rattle.std.specs.Prelude.{◌≡◌, ◌<◌, ◌++◌, ◌∷◌, [], true, false, OnOk, OnErr};
ghost use Rattle.std.specs.BTreeMap.{values};
ghost use Rattle.std.specs.List.{AllByRecursion};
ghost use Rattle.std.specs.Option.{option_map, option_copied};
ghost use Rattle.std.specs.Ordering.{nat_cmp};
ghost use Rattle.lists.proofs.Stored.{IsStored};
ghost use Rattle.lists.specs.Entries.{AreApart};
ghost use Rattle.event_texts.specs.Texts.{event_number, text_at, text_in, text_or_none, no_texts};
ghost use Rattle.event_texts.specs.Texts.{counted_bytes, has_number, IsCounted, IsGone};

use crate::Entries;
use event_keys::EventTexts;
use lists::{Bytes, Memory};
use std::alloc::Global;
use std::collections::{BTreeMap, BTreeSet};
use std::marker::Model;

/// An accepted event: its number, and the JSON text that it goes on as.
#[derive(Drop)]
pub struct EventText {
    /// The event's number, from 1.
    pub number: u64,
    /// One JSON object.
    pub text: Bytes,
}

/// Accepted events, each found by number, and which of them count. Contracts see the events in order of
/// number, and the numbers of those that count.
#[derive(Drop)]
pub struct Texts {
    texts: BTreeMap<u64, EventText>,
    counted: BTreeSet<u64>,
    /// Of those that count.
    bytes: u64,
}

impl Model for Texts {
    ghost use Rattle.std.specs.BTreeMap.{values};
    ghost use Rattle.event_texts.specs.Texts.{Texts, IsHeld};

    ghost Value = { Texts };

    ghost view = { λ t. record { texts = values t.texts; counted = t.counted.keys } };

    ghost invariant = { λ t. IsHeld t.texts.entries t.counted.keys t.bytes };
}

// The event that has a number. No other has it.
fn event_at(texts: &BTreeMap<u64, EventText>, number: u64) -> Option<&EventText>
    requires { IsStored nat_cmp event_number texts.now.entries }
    ensures value { option_copied result ≡ text_at number (values texts.now) }
    ensures apart { AreApart event_number (values texts.now) }
{
    texts.get(&number)
}

impl Texts {
    /// No events, which takes no memory.
    pub fn empty(alloc: Global) -> Self
        ensures { result ≡ no_texts }
    {
        Texts {
            texts: BTreeMap::new(alloc),
            counted: BTreeSet::new(alloc),
            bytes: 0,
        }
    }

    /// Adds an event whose number is above all. It doesn't count yet.
    pub fn add(&mut self, number: u64, text: Bytes) -> Result<(), Memory>
        requires below { AllByRecursion (λ e. event_number e < number) self.old.texts }
        ensures ok { OnOk result (self.new ≡ record self.old {
          texts = self.old.texts ++ (record { number = number; text = text }) ∷ [];
        }) }
        ensures err { OnErr result (self.new ≡ self.old) }
    {
        self.texts.insert(number, EventText { number, text })?;
        Ok(())
    }

    /// The event that has a number.
    pub fn get(&self, number: u64) -> Option<&EventText>
        ensures { option_copied result ≡ text_at number self.now.texts }
    {
        event_at(&self.texts, number)
    }

    /// The event's text, and none where it isn't there.
    pub fn text_or_none(&self, number: u64) -> &[u8]
        ensures { result.now ≡ text_or_none (text_at number self.now.texts) }
    {
        match self.get(number) {
            Some(event) => event.text.as_slice(),
            None => &[],
        }
    }

    /// The bytes of the events that count.
    pub fn bytes(&self) -> u64
        ensures { result ≡ counted_bytes self.now }
    {
        self.bytes
    }

    /// The event counts from now on, where it is there. A sum past 2^64 - 1 counts as want of memory,
    /// and then everything is as before.
    pub fn count(&mut self, number: u64) -> Result<(), Memory>
        ensures ok { OnOk result (IsCounted number true self.old self.new) }
        ensures err { OnErr result (self.new ≡ self.old) }
    {
        let Some(event) = event_at(&self.texts, number) else {
            return Ok(());
        };
        if self.counted.contains(&number) {
            return Ok(());
        }
        let Some(bytes) = self.bytes.checked_add(event.text.len() as u64) else {
            return Err(Memory);
        };
        self.counted.insert(number)?;
        self.bytes = bytes;
        Ok(())
    }

    /// The event counts no longer.
    pub fn discount(&mut self, number: u64)
        ensures { IsCounted number false self.old self.new }
    {
        let Some(event) = event_at(&self.texts, number) else {
            return;
        };
        if self.counted.remove(&number) {
            self.bytes -= event.text.len() as u64;
        }
    }

    /// An event goes that doesn't count.
    pub fn remove(&mut self, number: u64)
        requires { has_number self.old.counted number ≡ false }
        ensures { IsGone number self.old self.new }
    {
        self.texts.remove(&number);
    }

    /// The events by reference, in order of number.
    pub fn entries(&self) -> Entries<'_>
        ensures { result ≡ self.now.texts }
    {
        Entries {
            inner: self.texts.values(),
        }
    }
}

impl EventTexts for Texts {
    ghost use Rattle.event_texts.specs.Texts.{text_at, text_in};

    ghost text_of = { λ t number. text_in (text_at number t.texts) };

    fn text(&self, number: u64) -> Option<&[u8]> {
        let event = self.get(number)?;
        Some(event.text.as_slice())
    }
}
