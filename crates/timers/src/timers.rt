// Dues in order of due and number.
ghost use Rattle.std.specs.Prelude.{◌≡◌, [], find, None, OnOk, OnErr};
ghost use Rattle.std.specs.Option.{option_map};
ghost use Rattle.std.specs.List.{slice_get};
ghost use Rattle.lists.specs.Entries.{has, without, is_due, Leaves};
ghost use Rattle.kinds.specs.Stores.{due_moment, due_number, due_run, insert_due, due_at};

use kinds::Due;
use lists::Memory;
use ordered::{Entries, Ordered};
use std::alloc::Global;
use std::marker::Model;

/// What is due at a moment, in milliseconds since 1970, each with a number of its own. Contracts see the
/// list of dues in order of due and number.
#[derive(Drop)]
pub struct Timers {
    dues: Ordered<Due>,
}

impl Model for Timers {
    ghost use Rattle.std.specs.Prelude.{List};
    ghost use Rattle.kinds.specs.declared.store.Due.{Due};

    ghost Value = { List Due };

    ghost view = { λ t. t.dues };
}

impl Timers {
    /// Timers without dues, which take no memory.
    pub fn empty(alloc: Global) -> Self
        ensures { result ≡ [] }
    {
        Timers {
            dues: Ordered::empty(alloc),
        }
    }

    /// Adds a due whose number is held by none. The run is 0 for a window and for the limit of a call.
    pub fn put(&mut self, due: u64, number: u64, run: u64) -> Result<(), Memory>
        requires new { find (has due_number number) self.old ≡ None }
        ensures ok { OnOk result (self.new ≡ insert_due (due_at due number run) self.old) }
        ensures err { OnErr result (self.new ≡ self.old) }
    {
        self.dues.put(Due { due, number, run })?;
        Ok(())
    }

    /// Takes out the least by due and number, if it is due at the moment.
    pub fn take_due(&mut self, moment: u64) -> Option<Due>
        ensures least { result ≡ find (is_due due_moment moment) self.old }
        ensures left { Leaves due_number self.old result self.new }
    {
        self.dues.take_due(moment)
    }

    /// Drops the due that has a number, if there is one.
    pub fn drop_number(&mut self, number: u64)
        ensures { self.new ≡ without due_number number self.old }
    {
        self.dues.drop_number(number);
    }

    /// Drops the dues of a run. Looks at these alone.
    pub fn drop_run(&mut self, run: u64)
        ensures { self.new ≡ without due_run run self.old }
    {
        self.dues.drop_run(run);
    }

    /// When the least is due.
    pub fn next(&self) -> Option<u64>
        ensures { result ≡ option_map due_moment (slice_get self.now 0) }
    {
        self.dues.next_rank()
    }

    /// The dues by reference, in order of due and number.
    pub fn entries(&self) -> Entries<'_, Due>
        ensures { result ≡ self.now }
    {
        self.dues.entries()
    }
}
