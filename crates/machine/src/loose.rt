// What a step touched, so that it may go at the step's end.
ghost use Rattle.std.specs.Prelude.{◌≡◌, OnOk};
ghost use Rattle.machine.specs.Numbers.{AreJoined, IsTouched, nothing};

use crate::numbers::NumberSet;
use lists::Memory;
use std::alloc::Global;

/// What this step touched, so that it may be named no more: only this is looked at when the step ends.
#[derive(Drop)]
pub(crate) struct Loose {
    pub(crate) runs: NumberSet,
    pub(crate) events: NumberSet,
    pub(crate) versions: NumberSet,
}

impl Loose {
    /// Nothing, which takes no memory.
    pub(crate) fn empty(alloc: Global) -> Self
        ensures { result ≡ nothing }
    {
        Loose {
            runs: NumberSet::empty(alloc),
            events: NumberSet::empty(alloc),
            versions: NumberSet::empty(alloc),
        }
    }

    /// Which runs and windows name these events, or the version, has changed.
    pub(crate) fn touch(&mut self, version: u64, events: &[u64]) -> Result<(), Memory>
        ensures { OnOk result (IsTouched version events.now self.old self.new) }
    {
        self.versions.insert(version)?;
        self.events.insert_all(events)
    }
}
