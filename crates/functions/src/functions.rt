// The store of current functions, and what a registration makes of it.
ghost use Rattle.std.specs.Prelude.{◌≡◌, ◌+◌, ◌<◌, ◌^◌, ◌++◌, ◌&&◌, [], IfOk, length, filter, map, not, bytes_eq};
ghost use Rattle.functions.specs.Functions.{current_after, is_again, is_known, is_named, is_new, is_modified, new_beside, new_in, numbered, registered, same, stands_for, stays, version_of};
ghost use Rattle.std.specs.List.{list_any};

use crate::FunctionEntry;
use kinds::{App, Function, Numbers};
use lists::{Bytes, Items, Memory};
use std::alloc::Global;
use std::marker::Model;

/// The current functions, in order of version. Contracts see the list of them.
#[derive(Drop)]
pub struct Functions {
    entries: Items<FunctionEntry>,
}

impl Model for Functions {
    ghost use Rattle.std.specs.Prelude.{List};
    ghost use Rattle.functions.specs.declared.entry.FunctionEntry.{FunctionEntry};

    ghost Value = { List FunctionEntry };

    ghost view = { λ f. f.entries };
}

/// What a registration made of the functions.
#[derive(Drop)]
pub struct Registered {
    /// Those that are current now.
    pub functions: Functions,
    /// How many versions were given so far.
    pub versions: u64,
    /// Whether the list of current functions is another than before.
    pub modified: bool,
    /// Those that were current and no longer are, in order of version.
    pub replaced: Items<FunctionEntry>,
}

// Those that stay, and those that don't.
#[derive(Drop)]
struct Sorted {
    kept: Functions,
    replaced: Items<FunctionEntry>,
}

impl Functions {
    /// No functions, which takes no memory.
    pub fn empty(alloc: Global) -> Self
        ensures { result ≡ [] }
    {
        Functions {
            entries: Items::new(alloc),
        }
    }

    /// The functions, in order of version.
    pub fn as_slice(&self) -> &[FunctionEntry]
        ensures { result.now ≡ self.now }
    {
        self.entries.as_slice()
    }

    /// How many functions would be current after a registration.
    pub fn current_after(&self, app: &App) -> u64
        ensures { result ≡ current_after app.now self.now }
    {
        (self.count_kept(app) + self.count_new(app)) as u64
    }

    fn count_kept(&self, app: &App) -> usize
        ensures count { result ≡ length (filter (stays app.now) self.now) }
        ensures bound { result < 2 ^ 63 }
    {
        self.as_slice()
            .iter()
            .filter(|entry| stays(app, entry))
            .count()
    }

    fn count_new(&self, app: &App) -> usize
        ensures count { result ≡ length (new_in app.now self.now) }
        ensures bound { result < 2 ^ 63 }
    {
        let functions = app.functions.as_slice();
        functions
            .iter()
            .filter(|function| self.is_new(app, function))
            .count()
    }

    // Whether the function of a registration takes a new version.
    #[tactic(auto, using(crate::proofs::Kept::known_kept))]
    fn is_new(&self, app: &App, function: &Function) -> bool
        ensures { result ≡ is_new app.now self.now function.now }
    {
        !self.keeps(app, function)
    }

    // Whether one of those that stay is this function of the application.
    fn keeps(&self, app: &App, function: &Function) -> bool
        ensures { result ≡ list_any (stands_for app.now function.now) self.now }
    {
        let entries = self.as_slice();
        entries.iter().any(|entry| stands_for(app, function, entry))
    }

    /// The functions of an application in place of those that it had. One that is as it was keeps its
    /// version, and any other takes the next one. Want of memory spends the functions.
    #[tactic(auto, using(crate::proofs::Kept::new_short), unfolding(crate::specs::Functions::registered))]
    pub fn register(self, alloc: Global, app: App, versions: u64) -> Result<Registered, Memory>
        requires room { versions + length app.functions < 2 ^ 64 }
        ensures functions { IfOk result (λ r. r.functions ≡ registered app versions self) }
        ensures versions { IfOk result (λ r. r.versions ≡ versions + length (new_in app self)) }
        ensures modified { IfOk result (λ r.
            r.modified ≡ is_modified self (registered app versions self)) }
        ensures replaced { IfOk result (λ r. r.replaced ≡ filter (λ f. not (stays app f)) self) }
    {
        let before = self.versions(alloc)?;
        let Sorted { kept, replaced } = self.sort(alloc, &app)?;
        let App { name, functions } = app;
        let new = new_functions(alloc, kept.as_slice(), &name, functions)?;
        let versions_after = versions + new.len() as u64;
        let functions = kept.add(&name, new, versions)?;
        let modified = functions.versions(alloc)? != before;
        Ok(Registered {
            functions,
            versions: versions_after,
            modified,
            replaced,
        })
    }

    fn versions(&self, alloc: Global) -> Result<Numbers, Memory>
        ensures { IfOk result (λ versions. versions ≡ map version_of self.now) }
    {
        let mut versions = Items::new(alloc);
        for entry in self.as_slice() {
            versions.push(entry.version)?;
        }
        Ok(versions)
    }

    // Parts those that stay from those that don't.
    fn sort(self, alloc: Global, app: &App) -> Result<Sorted, Memory>
        ensures kept { IfOk result (λ sorted. sorted.kept ≡ filter (stays app.now) self) }
        ensures replaced { IfOk result
            (λ sorted. sorted.replaced ≡ filter (λ f. not (stays app.now f)) self) }
    {
        let mut kept = Items::new(alloc);
        let mut replaced = Items::new(alloc);
        for entry in self.entries {
            if stays(app, &entry) {
                kept.push(entry)?;
            } else {
                replaced.push(entry)?;
            }
        }
        Ok(Sorted {
            kept: Functions { entries: kept },
            replaced,
        })
    }

    // Adds functions, each with the next version.
    fn add(
        mut self,
        name: &Bytes,
        functions: Items<Function>,
        versions: u64,
    ) -> Result<Self, Memory>
        requires { versions + length functions < 2 ^ 64 }
        ensures { IfOk result (λ all. all ≡ self ++ numbered name.now versions functions) }
    {
        let mut entries = self.entries;
        let mut version = versions;
        for function in functions {
            version += 1;
            let app = name.clone()?;
            entries.push(FunctionEntry {
                version,
                app,
                function,
            })?;
        }
        Ok(Functions { entries })
    }
}

// The functions that none of these is, in order.
fn new_functions(
    alloc: Global,
    kept: &[FunctionEntry],
    name: &Bytes,
    functions: Items<Function>,
) -> Result<Items<Function>, Memory>
    ensures { IfOk result (λ new. new ≡ new_beside kept.now name.now functions) }
{
    let mut new = Items::new(alloc);
    for function in functions {
        if !is_known(name, kept, &function) {
            new.push(function)?;
        }
    }
    Ok(new)
}

fn is_known(name: &Bytes, entries: &[FunctionEntry], function: &Function) -> bool
    ensures { result ≡ is_known name.now entries.now function.now }
{
    entries
        .iter()
        .any(|entry| is_function(name, function, entry))
}

// Whether the entry is this function of the application.
fn is_function(name: &Bytes, function: &Function, entry: &FunctionEntry) -> bool
    ensures { result ≡ (bytes_eq entry.now.app name.now && same function.now entry.now.function) }
{
    entry.app == *name && same(function, &entry.function)
}

// Whether the entry stays, and is this function of the application.
fn stands_for(app: &App, function: &Function, entry: &FunctionEntry) -> bool
    ensures { result ≡ stands_for app.now function.now entry.now }
{
    is_function(&app.name, function, entry) && stays(app, entry)
}

// Whether the function stays current.
fn stays(app: &App, entry: &FunctionEntry) -> bool
    ensures { result ≡ stays app.now entry.now }
{
    let functions = app.functions.as_slice();
    if entry.app == app.name {
        is_again(functions, entry)
    } else {
        !is_named(functions, entry)
    }
}

fn is_again(functions: &[Function], entry: &FunctionEntry) -> bool
    ensures { result ≡ is_again functions.now entry.now }
{
    functions
        .iter()
        .any(|function| same(function, &entry.function))
}

fn is_named(functions: &[Function], entry: &FunctionEntry) -> bool
    ensures { result ≡ is_named functions.now entry.now }
{
    functions
        .iter()
        .any(|function| function.id == entry.function.id)
}

#[tactic(auto, unfolding(crate::specs::Functions::same))]
fn same(one: &Function, other: &Function) -> bool
    ensures { result ≡ same one.now other.now }
{
    *one == *other
}
