// A window as it is held.
ghost use Rattle.std.specs.Prelude.{◌≡◌, IfOk};
ghost use Rattle.kinds.specs.Windows.{fired, place_of};
ghost use Rattle.debounce_batch.specs.Held.{key_of};

use kinds::{Fired, Numbers, Window};
use lists::{Bytes, Memory};
use std::alloc::Global;
use std::marker::Model;

/// Debounces stand before batches.
pub(crate) const DEBOUNCE: u64 = 0;

pub(crate) const BATCH: u64 = 1;

/// A window, and for a debounce the list of its one event, made beforehand so that its end takes no
/// memory. Contracts see the window.
#[derive(Drop)]
pub(crate) struct Held {
    window: Window,
    alone: Numbers,
}

impl Model for Held {
    ghost use Rattle.kinds.specs.declared.window.Window.{Window};
    ghost use Rattle.debounce_batch.specs.Held.{IsAlone};

    ghost Value = { Window };

    ghost view = { λ h. h.window };

    ghost invariant = { λ h. IsAlone h.window h.alone };
}

impl Held {
    pub(crate) fn new(alloc: Global, window: Window) -> Result<Self, Memory>
        ensures { IfOk result (λ h. h ≡ window) }
    {
        let mut alone = Numbers::new(alloc);
        if let Window::Debounce { event, .. } = &window {
            alone.push(*event)?;
        }
        Ok(Held { window, alone })
    }

    pub(crate) fn window(&self) -> &Window
        ensures { result.now ≡ self.now }
    {
        &self.window
    }

    /// Its key, and what its run starts with.
    pub(crate) fn into_parts(self) -> ((u64, Bytes), Fired)
        ensures { result ≡ (key_of self, fired self) }
    {
        let Held { window, alone } = self;
        match window {
            Window::Debounce { version, value, .. } => {
                let fired = Fired {
                    version,
                    events: alone,
                };
                ((version, value), fired)
            }
            Window::Batch {
                version,
                value,
                events,
                ..
            } => ((version, value), Fired { version, events }),
        }
    }
}

/// Where a window stands: its kind, then its number.
pub(crate) fn place_of(window: &Window) -> (u64, u64)
    ensures { result ≡ place_of window.now }
{
    match window {
        Window::Debounce { number, .. } => (DEBOUNCE, *number),
        Window::Batch { number, .. } => (BATCH, *number),
    }
}

/// Which windows are one: those of a function version and a value.
pub(crate) fn key_of(window: &Window) -> Result<(u64, Bytes), Memory>
    ensures { IfOk result (λ key. key ≡ key_of window.now) }
{
    match window {
        Window::Debounce { version, value, .. } | Window::Batch { version, value, .. } => {
            Ok((*version, value.clone()?))
        }
    }
}
