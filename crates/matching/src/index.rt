// Entries found by number and run, and by the name and the bucket of an event.
ghost use Rattle.std.specs.Prelude.{◌≡◌, ◌<◌, ◌≤◌, ◌+◌, [], filter, find, length, None, OnOk, OnErr, IfOk, if◌then◌else◌};
ghost use Rattle.std.specs.Bool.{OnFalse, OnTrue};
ghost use Rattle.std.specs.Option.{option_copied};
ghost use Rattle.std.specs.List.Sorted.{IsStrictlySortedBy};
ghost use Rattle.std.specs.Ordering.{nat_cmp};
ghost use Rattle.std.specs.List.{filter_map};
ghost use Rattle.lists.specs.Entries.{has, without, insert_by, in_order, AreApart};
ghost use Rattle.kinds.specs.Stores.{AreBucketsRight, is_met};
ghost use Rattle.matching.specs.Places.{place_of};
ghost use Rattle.matching.specs.Met.{met_numbers, met_runs, run_at, asked_count, meets_at, asks_at, asks};

use crate::conditional::Conditional;
use crate::near::near;
use crate::place::Field;
use kinds::{Event, Matcher, Numbers, PathMatcher, Steps};
use lists::{Bytes, Memory};
use ordered::{Entries, Ordered};
use std::alloc::Global;
use std::collections::BTreeSet;
use std::marker::Model;
use std::sync::ledger::Ledger;

/// What waits for events, each with a number of its own. Contracts see the list of entries in order of
/// number.
#[derive(Drop)]
pub struct Index<E: Conditional> {
    alloc: Global,
    entries: Ordered<E>,
    places: BTreeSet<((Field, Bytes), u64)>,
}

impl<E: Conditional> Model for Index<E> {
    ghost use Rattle.std.specs.Prelude.{List};
    ghost use Rattle.ordered.specs.Indexes.{IsListed};
    ghost use Rattle.matching.specs.Places.{place_of, place_cmp};

    ghost Value = { List E };

    ghost view = { λ s. s.entries };

    ghost invariant = { λ s.
        IsListed place_cmp (λ e. place_of (E.condition_of e)) E.number_of s.entries s.places.keys };
}

impl<E: Conditional> Index<E> {
    /// An index without entries, which takes no memory.
    pub fn empty(alloc: Global) -> Self
        ensures { result ≡ [] }
    {
        Index {
            alloc,
            entries: Ordered::empty(alloc),
            places: BTreeSet::new(alloc),
        }
    }

    /// Adds an entry whose number is held by none.
    pub fn add(&mut self, entry: E) -> Result<(), Memory>
        requires new { find (has E.number_of (E.number_of entry)) self.old ≡ None }
        ensures ok { OnOk result (self.new ≡ insert_by E.number_of entry self.old) }
        ensures err { OnErr result (self.new ≡ self.old) }
    {
        let number = entry.number();
        let place = copy_place(self.alloc, &entry)?;
        self.entries.put(entry)?;
        match self.places.insert((place, number)) {
            Ok(_) => Ok(()),
            Err(_) => {
                self.entries.drop_number(number);
                return Err(Memory);
            }
        }
    }

    /// Drops the entry that has a number, if there is one.
    pub fn drop_number(&mut self, number: u64)
        ensures { self.new ≡ without E.number_of number self.old }
    {
        if let Some(entry) = self.entries.remove(number) {
            self.places.remove(&(entry.into_place(self.alloc), number));
        }
    }

    /// Drops the entries of a run. Looks at these alone.
    pub fn drop_run(&mut self, run: u64)
        ensures { self.new ≡ without E.run_of run self.old }
    {
        while self.drop_one(run) {}
    }

    // Drops an entry of a run, and says whether there was one.
    fn drop_one(&mut self, run: u64) -> bool
        ensures rest { OnTrue result (without E.run_of run self.new ≡ without E.run_of run self.old) }
        ensures fewer { OnTrue result (length self.new < length self.old) }
        ensures same { OnFalse result (self.new ≡ self.old) }
        ensures none { OnFalse result (find (has E.run_of run) self.old ≡ None) }
    {
        match self.entries.take_of(run) {
            Some(entry) => {
                let number = entry.number();
                self.places.remove(&(entry.into_place(self.alloc), number));
                true
            }
            None => false,
        }
    }

    /// The numbers of the entries that an event meets, in order. Evaluates the conditions of its name that
    /// are in the event's bucket or in none, and no other.
    pub fn matches<M: PathMatcher, L: Ledger>(
        &self,
        event: &Event,
        matcher: &M,
        steps: &mut Steps<L>,
    ) -> Result<Numbers, Memory>
        requires right { AreBucketsRight E.condition_of (M.is_true matcher.now) (M.value_of matcher.now)
            event.now self.now }
        ensures met { IfOk result (λ ns. ns
            ≡ met_numbers E.condition_of E.number_of (M.is_true matcher.now) event.now self.now) }
        ensures asked { steps.new ≤ steps.old
            + asked_count E.condition_of (M.value_of matcher.now) event.now self.now }
    {
        self.entries.order();
        let near = near(self.alloc, &self.places, event, matcher)?;
        self.pick(&near, event, matcher, steps)
    }

    // Those of some numbers whose entries an event meets.
    fn pick<M: Matcher, L: Ledger>(
        &self,
        near: &BTreeSet<u64>,
        event: &Event,
        matcher: &M,
        steps: &mut Steps<L>,
    ) -> Result<Numbers, Memory>
        ensures met { IfOk result (λ ns. ns ≡ filter
            (meets_at E.condition_of E.number_of
            (M.is_true matcher.now) event.now self.now) near.now.keys) }
        ensures asked { steps.new ≤ steps.old
            + length (filter (asks_at E.condition_of E.number_of event.now self.now) near.now.keys) }
        ensures ordered { IsStrictlySortedBy nat_cmp near.now.keys }
    {
        let mut met = Numbers::new(self.alloc);
        for number in near.iter() {
            if self.is_met(*number, event, matcher, steps)? {
                met.push(*number)?;
            }
        }
        Ok(met)
    }

    // Whether an event meets the entry that has a number.
    fn is_met<M: Matcher, L: Ledger>(
        &self,
        number: u64,
        event: &Event,
        matcher: &M,
        steps: &mut Steps<L>,
    ) -> Result<bool, Memory>
        ensures met { IfOk result (λ b. b
            ≡ meets_at E.condition_of E.number_of (M.is_true matcher.now) event.now self.now number) }
        ensures asked { steps.new ≤ steps.old
            + (if asks_at E.condition_of E.number_of event.now self.now number then 1 else 0) }
    {
        match self.entries.get(number) {
            Some(entry) => is_entry_met(entry, event, matcher, steps),
            None => Ok(false),
        }
    }

    /// The runs of the entries that an event meets, each once, in order. Evaluates as `matches` does.
    pub fn runs<M: PathMatcher, L: Ledger>(
        &self,
        event: &Event,
        matcher: &M,
        steps: &mut Steps<L>,
    ) -> Result<Numbers, Memory>
        requires right { AreBucketsRight E.condition_of (M.is_true matcher.now) (M.value_of matcher.now)
            event.now self.now }
        ensures met { IfOk result (λ rs. rs
            ≡ met_runs E.condition_of E.run_of (M.is_true matcher.now) event.now self.now) }
        ensures asked { steps.new ≤ steps.old
            + asked_count E.condition_of (M.value_of matcher.now) event.now self.now }
    {
        let met = self.matches(event, matcher, steps)?;
        self.runs_of(met.as_slice())
    }

    // The runs of the entries that have some numbers, each once, in order.
    fn runs_of(&self, numbers: &[u64]) -> Result<Numbers, Memory>
        ensures runs { IfOk result (λ rs. rs
            ≡ in_order (filter_map (run_at E.run_of E.number_of self.now) numbers.now)) }
        ensures apart { AreApart E.number_of self.now }
    {
        self.entries.order();
        let mut runs = BTreeSet::new(self.alloc);
        for number in numbers {
            if let Some(entry) = self.entries.get(*number) {
                runs.insert(entry.run())?;
            }
        }
        to_numbers(self.alloc, &runs)
    }

    /// The entry that has a number.
    pub fn get(&self, number: u64) -> Option<&E>
        ensures { option_copied result ≡ find (has E.number_of number) self.now }
    {
        self.entries.get(number)
    }

    /// The entries by reference, in order of number.
    pub fn entries(&self) -> Entries<'_, E>
        ensures { result ≡ self.now }
    {
        self.entries.entries()
    }
}

// A copy of an entry's place.
fn copy_place<E: Conditional>(alloc: Global, entry: &E) -> Result<(Field, Bytes), Memory>
    ensures { IfOk result (λ p. p ≡ place_of (E.condition_of entry.now)) }
{
    let name = Bytes::from_slice(alloc, entry.name())?;
    match entry.bucket() {
        Some(bucket) => {
            let path = Some(bucket.path.clone()?);
            Ok((Field { name, path }, bucket.value.clone()?))
        }
        None => Ok((Field { name, path: None }, Bytes::new(alloc))),
    }
}

// Whether an event meets an entry.
fn is_entry_met<E: Conditional, M: Matcher, L: Ledger>(
    entry: &E,
    event: &Event,
    matcher: &M,
    steps: &mut Steps<L>,
) -> Result<bool, Memory>
    ensures met { IfOk result (λ b. b
        ≡ is_met (M.is_true matcher.now) event.now (E.condition_of entry.now)) }
    ensures asked { steps.new ≤ steps.old
        + (if asks event.now (E.condition_of entry.now) then 1 else 0) }
{
    if entry.name() != event.name.as_slice() {
        return Ok(false);
    }
    match entry.cond() {
        Some(expr) => matcher.holds(expr, entry.first(), event, steps),
        None => Ok(true),
    }
}

// A set of numbers as a list.
fn to_numbers(alloc: Global, set: &BTreeSet<u64>) -> Result<Numbers, Memory>
    ensures { IfOk result (λ ns. ns ≡ set.now.keys) }
{
    let mut numbers = Numbers::new(alloc);
    for number in set.iter() {
        numbers.push(*number)?;
    }
    Ok(numbers)
}
