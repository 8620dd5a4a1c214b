// Runs that have ended, in order of ending.
ghost use Rattle.std.specs.Prelude.{◌≡◌, [], ◌∷◌, ◌++◌, find, length, None, OnOk, MatchOption};
ghost use Rattle.std.specs.Option.{option_copied};
ghost use Rattle.lists.specs.Entries.{has, without};
ghost use Rattle.runs.specs.Ended.{ended_number};

use crate::EndedRun;
use lists::Memory;
use ordered::{Numbered, Ranked};
use std::alloc::Global;
use std::marker::Model;

/// A run that has ended, with its place in a row.
#[derive(Drop)]
pub(crate) struct Placed {
    place: u64,
    ended: EndedRun,
}

impl Ranked for Placed {
    ghost rank_of = { λ p. p.place };

    ghost number_of = { λ p. p.ended.run };

    fn rank(&self) -> u64 {
        self.place
    }

    fn number(&self) -> u64 {
        self.ended.run
    }
}

/// Runs that have ended, in order of coming, each once and found by number.
#[derive(Drop)]
pub(crate) struct Row {
    entries: Numbered<Placed>,
    /// The place of the next.
    next: u64,
}

impl Model for Row {
    ghost use Rattle.std.specs.Prelude.{◌<◌, List, map};
    ghost use Rattle.std.specs.List.{AllByRecursion};
    ghost use Rattle.runs.specs.declared.ended.EndedRun.{EndedRun};
    ghost use Rattle.runs.specs.declared.row.Placed.{Placed};

    ghost Value = { List EndedRun };

    ghost view = { λ r. map (λ (p : Placed). p.ended) r.entries };

    ghost invariant = { λ r. AllByRecursion (λ (p : Placed). p.place < r.next) r.entries };
}

impl Row {
    pub(crate) fn empty(alloc: Global) -> Self
        ensures { result ≡ [] }
    {
        Row {
            entries: Numbered::empty(alloc),
            next: 0,
        }
    }

    /// Adds a run at the end. After 2^64 of them memory is said to be lacking.
    pub(crate) fn push(&mut self, ended: EndedRun) -> Result<(), Memory>
        requires { find (has ended_number ended.run) self.old ≡ None }
        ensures { OnOk result (self.new ≡ self.old ++ ended ∷ []) }
    {
        let place = self.next;
        let next = place.checked_add(1).ok_or(Memory)?;
        self.entries.put(Placed { place, ended })?;
        self.next = next;
        Ok(())
    }

    /// Takes out the first.
    pub(crate) fn take_first(&mut self) -> Option<EndedRun>
        ensures { MatchOption result (self.old ≡ []) (λ e. self.old ≡ e ∷ self.new) }
    {
        let first = self.entries.take_due(self.next)?;
        Some(first.ended)
    }

    /// Takes out a run, if it is there.
    pub(crate) fn remove(&mut self, run: u64)
        ensures { self.new ≡ without ended_number run self.old }
    {
        let _ = self.entries.remove(run);
    }

    pub(crate) fn get(&self, run: u64) -> Option<&EndedRun>
        ensures { option_copied result ≡ find (has ended_number run) self.now }
    {
        let placed = self.entries.get(run)?;
        Some(&placed.ended)
    }

    pub(crate) fn len(&self) -> usize
        ensures { result ≡ length self.now }
    {
        self.entries.len()
    }
}
