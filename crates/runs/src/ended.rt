// The runs that ended last.
ghost use Rattle.std.specs.Prelude.{◌≡◌, [], ◌∷◌, ◌++◌, find, map, filter, None, IfOk, OnOk};
ghost use Rattle.std.specs.List.{list_any};
ghost use Rattle.std.specs.Option.{option_copied};
ghost use Rattle.lists.specs.Entries.{has, in_order};
ghost use Rattle.runs.specs.Ended.{ended_number, ended_names, is_another, is_ended, last_ended};
ghost use Rattle.runs.specs.Ended.{last_or, outgoing};

use crate::mentions::Mentions;
use crate::row::Row;
use kinds::{Numbers, RunStatus};
use lists::{Bytes, Memory};
use std::alloc::Global;
use std::marker::Model;
use std::mem;

/// How many of the runs that ended last are looked at.
const MOST: usize = 1_000;

/// A run that has ended.
#[derive(Drop)]
pub struct EndedRun {
    /// The run's number.
    pub run: u64,
    /// When it was made, in milliseconds since 1970.
    pub moment: u64,
    /// The id of its function.
    pub function: Bytes,
    /// How it ended.
    pub status: RunStatus,
    /// The numbers of its events, in order.
    pub events: Numbers,
}

/// Runs that have ended, each once, in order of ending. The last thousand are found by number and by
/// event, those before them can be dropped.
#[derive(Drop)]
pub struct EndedRuns {
    alloc: Global,
    early: Row,
    last: Row,
    /// Of the last thousand.
    events: Mentions,
}

impl Model for EndedRuns {
    ghost use Rattle.std.specs.Prelude.{List, ◌++◌};
    ghost use Rattle.runs.specs.declared.ended.EndedRun.{EndedRun};
    ghost use Rattle.runs.specs.Ended.{IsSplit};

    ghost Value = { List EndedRun };

    ghost view = { λ e. e.early ++ e.last };

    ghost invariant = { λ e. IsSplit e.early e.last e.events };
}

impl EndedRuns {
    /// No runs, which takes no memory.
    pub fn empty(alloc: Global) -> Self
        ensures { result ≡ [] }
    {
        EndedRuns {
            alloc,
            early: Row::empty(alloc),
            last: Row::empty(alloc),
            events: Mentions::empty(alloc),
        }
    }

    /// Adds a run that ends now, and says which one isn't among the last thousand any more. Want of
    /// memory leaves no run.
    pub fn add(&mut self, ended: EndedRun) -> Result<Option<u64>, Memory>
        requires { find (has ended_number ended.run) self.old ≡ None }
        ensures now { OnOk result (self.new ≡ self.old ++ ended ∷ []) }
        ensures out { IfOk result (λ out. out ≡ outgoing self.old) }
    {
        let before = mem::replace(self, EndedRuns::empty(self.alloc));
        let (after, out) = before.with(ended)?;
        *self = after;
        Ok(out)
    }

    // One run more, and the run that isn't among the last thousand any more.
    fn with(self, ended: EndedRun) -> Result<(EndedRuns, Option<u64>), Memory>
        requires { find (has ended_number ended.run) self ≡ None }
        ensures now { IfOk result (λ r. r.0 ≡ self ++ ended ∷ []) }
        ensures out { IfOk result (λ r. r.1 ≡ outgoing self) }
    {
        let EndedRuns {
            alloc,
            mut early,
            mut last,
            mut events,
        } = self;
        events.add_all(ended.events.as_slice(), ended.run)?;
        last.push(ended)?;
        if last.len() <= MOST {
            return Ok((
                EndedRuns {
                    alloc,
                    early,
                    last,
                    events,
                },
                None,
            ));
        }
        let Some(first) = last.take_first() else {
            return Err(Memory);
        };
        events.remove_all(first.events.as_slice(), first.run);
        let out = first.run;
        early.push(first)?;
        Ok((
            EndedRuns {
                alloc,
                early,
                last,
                events,
            },
            Some(out),
        ))
    }

    /// Whether a run is among the last thousand.
    pub fn is_last(&self, run: u64) -> bool
        ensures { result ≡ list_any (is_ended run) (last_ended self.now) }
    {
        self.last.get(run).is_some()
    }

    /// A run of the last thousand.
    pub fn get_last(&self, run: u64) -> Option<&EndedRun>
        ensures { option_copied result ≡ find (is_ended run) (last_ended self.now) }
    {
        self.last.get(run)
    }

    /// The runs among the last thousand that have the event, by number.
    pub fn of_event(&self, event: u64) -> Result<Numbers, Memory>
        ensures { IfOk result (λ ns.
            ns ≡ in_order (map ended_number (filter (ended_names event) (last_ended self.now)))) }
    {
        self.events.numbers(self.alloc, event)
    }

    /// Drops a run, if it stands before the last thousand.
    pub fn drop_before_last(&mut self, run: u64)
        ensures { self.new ≡ last_or (is_another run) 1000 self.old }
    {
        self.early.remove(run);
    }
}
