// Functions by version.
ghost use Rattle.std.specs.Prelude.{◌≡◌, ◌+◌, ◌<◌, ◌≤◌, ◌^◌, ◌==◌, ◌++◌, ◌∷◌, [], filter, find, length, map, not, IfOk, OnOk, bytes_eq};
ghost use Rattle.std.specs.Bool.{OnTrue};
ghost use Rattle.std.specs.List.{AllByRecursion};
ghost use Rattle.std.specs.Option.{option_copied};
ghost use Rattle.functions.specs.Functions.{current_after, is_modified, new_in, registered, stays, version_of};
ghost use Rattle.lists.specs.Entries.{insert_by};
ghost use Rattle.machine.specs.Versions.{AreFresh, no_versions, version_at};
ghost use Rattle.run_model.specs.Machine.{insert_all};

use functions::{FunctionEntry, Functions};
use kinds::{App, Function, Numbers};
use lists::{Items, Memory};
use std::alloc::Global;
use std::collections::BTreeMap;
use std::marker::Model;

/// The functions by version: those that are current, and those that no longer are and that a run or a window names.
#[derive(Drop)]
pub(crate) struct Versions {
    alloc: Global,
    current: Functions,
    retired: BTreeMap<u64, FunctionEntry>,
}

impl Model for Versions {
    ghost use Rattle.std.specs.BTreeMap.{values};
    ghost use Rattle.machine.specs.Versions.{Versions, AreVersioned};

    ghost Value = { Versions };

    ghost view = { λ v. record { current = v.current; retired = values v.retired } };

    ghost invariant = { λ v. AreVersioned v.current v.retired.entries };
}

/// What a registration changed: how many versions were given so far, and whether the list of current functions is
/// another than before.
#[derive(Clone, Copy)]
pub(crate) struct Change {
    pub(crate) versions: u64,
    pub(crate) modified: bool,
}

impl Versions {
    /// No functions, which takes no memory.
    pub(crate) fn empty(alloc: Global) -> Self
        ensures { result ≡ no_versions }
    {
        Versions {
            alloc,
            current: Functions::empty(alloc),
            retired: BTreeMap::new(alloc),
        }
    }

    /// The current functions, in order of version.
    pub(crate) fn current(&self) -> &[FunctionEntry]
        ensures { result.now ≡ self.now.current }
    {
        self.current.as_slice()
    }

    /// How many functions would be current after a registration.
    pub(crate) fn current_after(&self, app: &App) -> u64
        ensures { result ≡ current_after app.now self.now.current }
    {
        self.current.current_after(app)
    }

    /// A function by its version, current or not.
    pub(crate) fn get(&self, version: u64) -> Option<&FunctionEntry>
        ensures { option_copied result ≡ version_at version self.now }
    {
        match self.current_at(version) {
            Some(entry) => Some(entry),
            None => self.retired.get(&version),
        }
    }

    fn current_at(&self, version: u64) -> Option<&FunctionEntry>
        ensures { option_copied result ≡ find (λ f. version == f.version) self.now.current }
    {
        let current = self.current.as_slice();
        match current.binary_search_by_key(&version, |entry| entry.version) {
            Ok(place) => Some(&current[place]),
            Err(_) => None,
        }
    }

    /// A current function by its id.
    pub(crate) fn of_id(&self, id: &[u8]) -> Option<&FunctionEntry>
        ensures { option_copied result
            ≡ find (λ f. bytes_eq id.now f.function.id) self.now.current }
    {
        let current = self.current.as_slice();
        current
            .iter()
            .find(|entry| id == entry.function.id.as_slice())
    }

    /// The versions of the current functions, in order.
    pub(crate) fn current_versions(&self) -> Result<Numbers, Memory>
        ensures { IfOk result (λ ns. ns ≡ map version_of self.now.current) }
    {
        let mut versions = Items::new(self.alloc);
        for entry in self.current() {
            versions.push(entry.version)?;
        }
        Ok(versions)
    }

    /// The functions of an application take the place of those that it had, which are retired. Want of memory, and of
    /// numbers, spends the functions.
    pub(crate) fn register(&mut self, app: App, versions: u64) -> Result<Change, Memory>
        requires given { AllByRecursion (λ f. f.version ≤ versions)
            (self.old.current ++ self.old.retired) }
        ensures current { OnOk result (self.new.current ≡ registered app versions self.old.current) }
        ensures retired { OnOk result (self.new.retired
            ≡ insert_all (filter (λ f. not (stays app f)) self.old.current) self.old.retired) }
        ensures versions { IfOk result
            (λ c. c.versions ≡ versions + length (new_in app self.old.current)) }
        ensures modified { IfOk result (λ c. c.modified
            ≡ is_modified self.old.current (registered app versions self.old.current)) }
    {
        if !has_room(versions, app.functions.as_slice()) {
            return Err(Memory);
        }
        let before = std::mem::replace(&mut self.current, Functions::empty(self.alloc));
        let registered = before.register(self.alloc, app, versions)?;
        self.current = registered.functions;
        self.retire(registered.replaced)?;
        Ok(Change {
            versions: registered.versions,
            modified: registered.modified,
        })
    }

    fn retire(&mut self, replaced: Items<FunctionEntry>) -> Result<(), Memory>
        requires { AreFresh replaced self.old }
        ensures current { self.new.current ≡ self.old.current }
        ensures retired { OnOk result (self.new.retired ≡ insert_all replaced self.old.retired) }
    {
        for entry in replaced {
            self.retire_one(entry)?;
        }
        Ok(())
    }

    fn retire_one(&mut self, entry: FunctionEntry) -> Result<(), Memory>
        requires { AreFresh (entry ∷ []) self.old }
        ensures current { self.new.current ≡ self.old.current }
        ensures retired { OnOk result (self.new.retired ≡ insert_by version_of entry self.old.retired) }
    {
        self.retired.insert(entry.version, entry)?;
        Ok(())
    }

    /// A version goes, where it is retired.
    pub(crate) fn forget(&mut self, version: u64)
        ensures current { self.new.current ≡ self.old.current }
        ensures retired { self.new.retired ≡ filter (λ f. not (version == f.version)) self.old.retired }
    {
        self.retired.remove(&version);
    }
}

// Whether each function can have a version of its own.
fn has_room(versions: u64, functions: &[Function]) -> bool
    ensures { OnTrue result (versions + length functions.now < 2 ^ 64) }
{
    functions.len() as u64 <= u64::MAX - versions
}
