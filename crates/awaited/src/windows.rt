// Windows of events, with their dues and what they name.
ghost use Rattle.std.specs.Prelude.{◌≡◌, ◌≤◌, [], true, find, None, IfOk, OnOk};
ghost use Rattle.std.specs.Option.{option_map, option_copied};
ghost use Rattle.std.specs.List.{list_any};
ghost use Rattle.lists.specs.Entries.{AreApart};
ghost use Rattle.kinds.specs.Windows.{number_of, has_number, is_of, without_number, has_room, fired, IsRule, last_moment};
ghost use Rattle.debounce_batch.specs.Events.{window_after, after_offer};
ghost use Rattle.timers.specs.Dues.{as_due, least_due};
ghost use Rattle.awaited.specs.Named.{names_event, names_version, window_due, no_run, placed_as, waits_as, replaced_in};

use crate::names::Names;
use crate::placed::Placed;
use debounce_batch::{Entries, Windows};
use kinds::{Due, Fired, Offered, Window, WindowRule};
use lists::{Bytes, Memory};
use std::alloc::Global;
use std::marker::Model;

/// The open windows, at most one for each function version and value. Contracts see debounces and then
/// batches, each in order of number.
#[derive(Drop)]
pub struct WindowSet {
    alloc: Global,
    windows: Windows,
    names: Names,
}

impl Model for WindowSet {
    ghost use Rattle.std.specs.Prelude.{List};
    ghost use Rattle.kinds.specs.declared.window.Window.{Window};
    ghost use Rattle.awaited.specs.Named.{AreKept};

    ghost Value = { List Window };

    ghost view = { λ s. s.windows };

    ghost invariant = { λ s. AreKept s.windows s.names.dues s.names.events.keys s.names.versions.keys };
}

impl WindowSet {
    /// No windows, which takes no memory.
    pub fn empty(alloc: Global) -> Self
        ensures { result ≡ [] }
    {
        WindowSet {
            alloc,
            windows: Windows::empty(alloc),
            names: Names::empty(alloc),
        }
    }

    /// An event comes at the moment `t`, in milliseconds since 1970. It opens a window, which takes the
    /// number, or joins the one that is open for the version and value. Want of memory leaves no
    /// windows behind, or all as before.
    pub fn offer(
        &mut self,
        version: u64,
        rule: &WindowRule,
        value: &Bytes,
        event: u64,
        t: u64,
        number: u64,
    ) -> Result<Placed, Memory>
        requires fresh { find (has_number number) self.old ≡ None }
        requires room { has_room rule.now (find (is_of version value.now) self.old) ≡ true }
        requires rule { IsRule rule.now }
        requires moment { t ≤ last_moment }
        ensures answer { IfOk result
            (λ a. a ≡ placed_as rule.now (find (is_of version value.now) self.old)
            (window_after rule.now version value.now event t number self.old)) }
        ensures ok { OnOk result
            (self.new ≡ after_offer rule.now version value.now event t number self.old) }
    {
        let key = (version, value.clone()?);
        let before = self.windows.find(&key);
        let was_open = before.is_some();
        let replaced = replaced_in(before);
        let offered = self.windows.offer(version, rule, value, event, t, number)?;
        match offered {
            Offered::Full { number, events } => {
                self.names.close(number, events.as_slice(), version);
                Ok(Placed::Full { events, was_open })
            }
            Offered::Waits { number, due } => {
                match self.names.open(number, due, replaced, event, version) {
                    Ok(()) => Ok(told(was_open)),
                    Err(_) => {
                        self.windows = Windows::empty(self.alloc);
                        self.names = Names::empty(self.alloc);
                        return Err(Memory);
                    }
                }
            }
        }
    }

    /// The window that is open for a function version and a value.
    pub fn find(&self, key: &(u64, Bytes)) -> Option<&Window>
        ensures { option_copied result ≡ find (is_of key.now.0 key.now.1) self.now }
    {
        self.windows.find(key)
    }

    /// The window that has a number is over.
    pub fn fire(&mut self, number: u64) -> Option<Fired>
        ensures value { result ≡ option_map fired (find (has_number number) self.old) }
        ensures left { self.new ≡ without_number number self.old }
    {
        let fired = self.windows.fire(number)?;
        self.names
            .close(number, fired.events.as_slice(), fired.version);
        Some(fired)
    }

    /// Whether a window names an event.
    pub fn names(&self, event: u64) -> bool
        ensures { result ≡ list_any (names_event event) self.now }
    {
        self.names.has_event(event)
    }

    /// Whether a window is of a function version.
    pub fn names_version(&self, version: u64) -> bool
        ensures { result ≡ list_any (names_version version) self.now }
    {
        self.names.has_version(version)
    }

    /// The least due, with the window's number; of those that tie the one of the least number. The run is 0.
    pub fn first(&self) -> Option<Due>
        ensures least { result
            ≡ option_map (as_due number_of no_run) (least_due window_due number_of self.now) }
        ensures apart { AreApart number_of self.now }
    {
        self.names.first()
    }

    /// The windows by reference: debounces and then batches, each by number.
    pub fn entries(&self) -> Entries<'_>
        ensures { result ≡ self.now }
    {
        self.windows.entries()
    }
}

// The event that a window goes on without, once it has another.
fn replaced_in(before: Option<&Window>) -> Option<u64>
    ensures { result ≡ replaced_in (option_copied before.entry) }
{
    match before {
        Some(Window::Debounce { event, .. }) => Some(*event),
        Some(Window::Batch { .. }) | None => None,
    }
}

// What became of an event that waits.
fn told(was_open: bool) -> Placed
    ensures { result ≡ waits_as was_open }
{
    if was_open {
        Placed::Joined
    } else {
        Placed::Opened
    }
}
