// The store of open windows.
ghost use Rattle.std.specs.Prelude.{◌≡◌, ◌≤◌, [], true, find, None, Some, IfOk, IfSome, OnOk, OnErr};
ghost use Rattle.std.specs.Map.{values_of};
ghost use Rattle.std.specs.Option.{option_map, option_copied};
ghost use Rattle.lists.specs.Entries.{AreApart};
ghost use Rattle.ordered.specs.Indexes.{IsSorted};
ghost use Rattle.kinds.specs.Windows.{number_of, version_of, value_of, kind_of, place_of, has_number, is_of, without_number, others, insert_window, after_event, standing, offered, has_room, fired, IsRule, IsDated, last_moment};
ghost use Rattle.debounce_batch.specs.Held.{key_of};
ghost use Rattle.debounce_batch.specs.Events.{answer_to, after_offer, StandsAt, replaced};

use crate::entries::Entries;
use crate::event::{closed, is_full, joined, opened, waits};
use crate::held::{BATCH, DEBOUNCE, Held, key_of, place_of};
use kinds::{Fired, Offered, Window, WindowRule};
use lists::{Bytes, Memory};
use std::alloc::Global;
use std::collections::BTreeMap;
use std::marker::Model;

/// Open windows, at most one for each function version and value. Contracts see debounces and then
/// batches, each in order of number.
#[derive(Drop)]
pub struct Windows {
    alloc: Global,
    windows: BTreeMap<(u64, u64), Held>,
    /// Where the window of a version and a value stands.
    places: BTreeMap<(u64, Bytes), (u64, u64)>,
}

impl Model for Windows {
    ghost use Rattle.std.specs.Prelude.{List};
    ghost use Rattle.std.specs.BTreeMap.{values};
    ghost use Rattle.kinds.specs.declared.window.Window.{Window};
    ghost use Rattle.debounce_batch.specs.Held.{AreHeld};

    ghost Value = { List Window };

    ghost view = { λ s. values s.windows };

    ghost invariant = { λ s. AreHeld s.windows.entries s.places.entries };
}

impl Windows {
    /// A value without windows, which takes no memory.
    pub fn empty(alloc: Global) -> Self
        ensures { result ≡ [] }
    {
        Windows {
            alloc,
            windows: BTreeMap::new(alloc),
            places: BTreeMap::new(alloc),
        }
    }

    /// An event comes at the moment `t`, in milliseconds since 1970. It opens a window, which takes the
    /// number, or joins the one that is open for the version and value.
    pub fn offer(
        &mut self,
        version: u64,
        rule: &WindowRule,
        value: &Bytes,
        event: u64,
        t: u64,
        number: u64,
    ) -> Result<Offered, Memory>
        requires fresh { find (has_number number) self.old ≡ None }
        requires room { has_room rule.now (find (is_of version value.now) self.old) ≡ true }
        requires rule { IsRule rule.now }
        requires moment { t ≤ last_moment }
        ensures answer { IfOk result (λ a.
            a ≡ answer_to rule.now version value.now event t number self.old) }
        ensures ok { OnOk result
            (self.new ≡ after_offer rule.now version value.now event t number self.old) }
        ensures err { OnErr result (self.new ≡ self.old) }
    {
        let key = (version, value.clone()?);
        match self.find(&key) {
            None => {
                let window = opened(self.alloc, rule, version, value, event, t, number)?;
                if is_full(rule, &window) {
                    return Ok(closed(window));
                }
                let answer = waits(&window);
                self.add(key, window)?;
                Ok(answer)
            }
            Some(window) => {
                let window = joined(rule, event, t, window)?;
                if is_full(rule, &window) {
                    let _ = self.close(&key);
                    return Ok(closed(window));
                }
                let answer = waits(&window);
                self.replace(window)?;
                Ok(answer)
            }
        }
    }

    /// The window is over: its number is due.
    pub fn fire(&mut self, number: u64) -> Option<Fired>
        ensures value { result ≡ option_map fired (find (has_number number) self.old) }
        ensures left { self.new ≡ without_number number self.old }
    {
        let held = take(&mut self.windows, number)?;
        let (key, fired) = held.into_parts();
        self.places.remove(&key);
        Some(fired)
    }

    /// Adds a window of an earlier session.
    pub fn restore(&mut self, window: Window) -> Result<(), Memory>
        requires fresh { find (has_number (number_of window)) self.old ≡ None }
        requires alone { find (is_of (version_of window) (value_of window)) self.old ≡ None }
        requires dated { IsDated window }
        ensures ok { OnOk result (self.new ≡ insert_window window self.old) }
        ensures err { OnErr result (self.new ≡ self.old) }
    {
        let key = key_of(&window)?;
        self.add(key, window)
    }

    /// The window that is open for a function version and a value of the rule's key.
    pub fn find(&self, key: &(u64, Bytes)) -> Option<&Window>
        ensures value { option_copied result ≡ find (is_of key.now.0 key.now.1) self.now }
        ensures dated { IfSome result (λ w. IsDated w.now) }
    {
        let place = self.places.get(key)?;
        let held = self.windows.get(place)?;
        Some(held.window())
    }

    /// The windows by reference: debounces and then batches, each by number.
    pub fn entries(&self) -> Entries<'_>
        ensures { result ≡ self.now }
    {
        Entries::new(self.windows.values())
    }

    fn add(&mut self, key: (u64, Bytes), window: Window) -> Result<(), Memory>
        requires key { key ≡ key_of window }
        requires fresh { find (has_number (number_of window)) self.old ≡ None }
        requires alone { find (is_of (version_of window) (value_of window)) self.old ≡ None }
        requires dated { IsDated window }
        ensures ok { OnOk result (self.new ≡ insert_window window self.old) }
        ensures err { OnErr result (self.new ≡ self.old) }
    {
        let place = place_of(&window);
        let held = Held::new(self.alloc, window)?;
        self.windows.insert(place, held)?;
        match self.places.insert(key, place) {
            Ok(_) => Ok(()),
            Err(_) => {
                self.windows.remove(&place);
                return Err(Memory);
            }
        }
    }

    /// A window takes the place of the one that is open for its version and value.
    fn replace(&mut self, window: Window) -> Result<(), Memory>
        requires place { StandsAt window self.old }
        requires dated { IsDated window }
        ensures ok { OnOk result (self.new ≡ replaced window self.old) }
        ensures err { OnErr result (self.new ≡ self.old) }
    {
        let place = place_of(&window);
        let held = Held::new(self.alloc, window)?;
        self.windows.insert(place, held)?;
        Ok(())
    }

    fn close(&mut self, key: &(u64, Bytes)) -> Option<Held>
        ensures { self.new ≡ others key.now.0 key.now.1 self.old }
    {
        let place = self.places.remove(key)?;
        self.windows.remove(&place)
    }
}

/// Takes out the window that has a number, of either kind.
fn take(windows: &mut BTreeMap<(u64, u64), Held>, number: u64) -> Option<Held>
    requires sorted { IsSorted kind_of number_of windows.old.entries }
    requires apart { AreApart number_of (values_of windows.old.entries) }
    ensures value { result ≡ find (has_number number) (values_of windows.old.entries) }
    ensures left { values_of windows.new.entries
        ≡ without_number number (values_of windows.old.entries) }
    ensures sorted { IsSorted kind_of number_of windows.new.entries }
{
    match windows.remove(&(DEBOUNCE, number)) {
        Some(held) => Some(held),
        None => windows.remove(&(BATCH, number)),
    }
}
