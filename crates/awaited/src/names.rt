// The dues of windows, and what they name.
ghost use Rattle.std.specs.Prelude.{◌≡◌, ◌==◌, ◌||◌, ◌&&◌, ◌∷◌, [], not, find, None, OnOk, IfSome};
ghost use Rattle.std.specs.List.{slice_get};
ghost use Rattle.lists.specs.Entries.{without};
ghost use Rattle.kinds.specs.Stores.{due_number, due_at, insert_due};
ghost use Rattle.awaited.specs.Named.{has_pair, is_in, is_one, IsNamed, Renames};

use crate::dues::first_of;
use kinds::Due;
use lists::Memory;
use std::alloc::Global;
use std::collections::BTreeSet;
use timers::Timers;

/// The dues of windows, and pairs of a name and a window's number: an event, or a function version.
#[derive(Drop)]
pub(crate) struct Names {
    dues: Timers,
    events: BTreeSet<(u64, u64)>,
    versions: BTreeSet<(u64, u64)>,
}

impl Names {
    /// No dues and no names, which take no memory.
    pub(crate) fn empty(alloc: Global) -> Self
        ensures dues { result.dues ≡ [] }
        ensures events { result.events.keys ≡ [] }
        ensures versions { result.versions.keys ≡ [] }
    {
        Names {
            dues: Timers::empty(alloc),
            events: BTreeSet::new(alloc),
            versions: BTreeSet::new(alloc),
        }
    }

    /// A window of a number is open till a moment. It names an event in the place of another, where there
    /// was one, and a version.
    pub(crate) fn open(
        &mut self,
        number: u64,
        due: u64,
        replaced: Option<u64>,
        event: u64,
        version: u64,
    ) -> Result<(), Memory>
        ensures dues { OnOk result (self.new.dues
            ≡ insert_due (due_at due number 0) (without due_number number self.old.dues)) }
        ensures events { OnOk result (Renames number (λ other. (other == event)
            || (not (is_one replaced other) && has_pair self.old.events.keys other number))
            self.old.events.keys self.new.events.keys) }
        ensures versions { OnOk result (Renames number (λ other. (other == version)
            || has_pair self.old.versions.keys other number)
            self.old.versions.keys self.new.versions.keys) }
    {
        self.dues.drop_number(number);
        self.dues.put(due, number, 0)?;
        unname_one(&mut self.events, replaced, number);
        self.events.insert((event, number))?;
        self.versions.insert((version, number))?;
        Ok(())
    }

    /// A window of a number, with these events and of this version, is over.
    pub(crate) fn close(&mut self, number: u64, events: &[u64], version: u64)
        ensures dues { self.new.dues ≡ without due_number number self.old.dues }
        ensures events { Renames number
            (λ name. not (is_in name events.now) && has_pair self.old.events.keys name number)
            self.old.events.keys self.new.events.keys }
        ensures versions { Renames number
            (λ name. not (name == version) && has_pair self.old.versions.keys name number)
            self.old.versions.keys self.new.versions.keys }
    {
        self.dues.drop_number(number);
        unname(&mut self.events, events, number);
        self.versions.remove(&(version, number));
    }

    /// Whether a window names an event.
    pub(crate) fn has_event(&self, event: u64) -> bool
        ensures { IsNamed self.now.events.keys event result }
    {
        is_named(&self.events, event)
    }

    /// Whether a window names a version.
    pub(crate) fn has_version(&self, version: u64) -> bool
        ensures { IsNamed self.now.versions.keys version result }
    {
        is_named(&self.versions, version)
    }

    /// The least due.
    pub(crate) fn first(&self) -> Option<Due>
        ensures { result ≡ slice_get self.now.dues 0 }
    {
        first_of(&self.dues)
    }
}

// Takes pairs of a number away.
fn unname(pairs: &mut BTreeSet<(u64, u64)>, names: &[u64], number: u64)
    ensures { Renames number (λ name. not (is_in name names.now) && has_pair pairs.old.keys name number)
        pairs.old.keys pairs.new.keys }
{
    for name in names {
        pairs.remove(&(*name, number));
    }
}

// Takes a pair of a number away, where there is one.
fn unname_one(pairs: &mut BTreeSet<(u64, u64)>, name: Option<u64>, number: u64)
    ensures { Renames number (λ other. not (is_one name other) && has_pair pairs.old.keys other number)
        pairs.old.keys pairs.new.keys }
{
    if let Some(name) = name {
        pairs.remove(&(name, number));
    }
}

// Whether there is a pair of a name.
fn is_named(pairs: &BTreeSet<(u64, u64)>, name: u64) -> bool
    ensures { IsNamed pairs.now.keys name result }
{
    let Some(&(found, _)) = pairs.range((name, 0)..).next() else {
        return false;
    };
    found == name
}
