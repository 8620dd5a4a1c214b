// Open calls, found by run and target.
ghost use Rattle.std.specs.Prelude.{◌≡◌, ◌<◌, ◌++◌, ◌∷◌, [], find, OnOk, OnErr};
ghost use Rattle.std.specs.List.{AllByRecursion, list_any, slice_get};
ghost use Rattle.std.specs.Option.{option_copied, option_map};
ghost use Rattle.lists.specs.Entries.{AreApart};
ghost use Rattle.admission.specs.Issues.{call_of, has_call, without_call, is_issue_of, has_open_call};
ghost use Rattle.admission.specs.Issues.{AreInOrder};
ghost use Rattle.admission.specs.declared.issue.Issue.{Issue};

use crate::OpenCalls;
use crate::issue::Issue;
use crate::issues::Issues;
use crate::place::{Place, first_of, first_of_run, part_of};
use lists::Memory;
use std::alloc::Global;
use std::collections::BTreeSet;
use std::marker::Model;

/// Open calls, found by run and target too.
#[derive(Drop)]
pub(crate) struct Placed {
    issues: Issues,
    places: BTreeSet<Place>,
}

impl Model for Placed {
    ghost use Rattle.std.specs.Prelude.{List};
    ghost use Rattle.lists.specs.Entries.{pair_cmp};
    ghost use Rattle.ordered.specs.Indexes.{IsListed};
    ghost use Rattle.admission.specs.Indexes.{issue_place};
    ghost use Rattle.admission.specs.Issues.{call_of};
    ghost use Rattle.admission.specs.declared.issue.Issue.{Issue};

    ghost Value = { List Issue };

    ghost view = { λ p. p.issues };

    ghost invariant = { λ p. IsListed pair_cmp issue_place call_of p.issues p.places.keys };
}

impl Placed {
    pub(crate) fn empty(alloc: Global) -> Self
        ensures { result ≡ [] }
    {
        Placed {
            issues: Issues::empty(alloc),
            places: BTreeSet::new(alloc),
        }
    }

    /// Adds a call whose number is above all.
    pub(crate) fn push(&mut self, issue: Issue) -> Result<(), Memory>
        requires below { AllByRecursion (λ (i : Issue). i.call < issue.call) self.old }
        ensures ok { OnOk result (self.new ≡ self.old ++ issue ∷ []) }
        ensures err { OnErr result (self.new ≡ self.old) }
    {
        let place = (part_of(&issue.item), issue.call);
        self.places.insert(place)?;
        match self.issues.push(issue) {
            Ok(()) => Ok(()),
            Err(_) => {
                self.places.remove(&place);
                Err(Memory)
            }
        }
    }

    pub(crate) fn get(&self, call: u64) -> Option<&Issue>
        ensures value { option_copied result ≡ find (has_call call) self.now }
        ensures apart { AreApart call_of self.now }
    {
        self.issues.get(call)
    }

    pub(crate) fn take(&mut self, call: u64) -> Option<Issue>
        ensures value { result ≡ find (has_call call) self.old }
        ensures left { self.new ≡ without_call call self.old }
    {
        let issue = self.issues.take(call)?;
        self.places.remove(&(part_of(&issue.item), call));
        Some(issue)
    }

    /// Whether a call of the run's target is open.
    pub(crate) fn has(&self, run: u64, target: &[u8]) -> bool
        ensures { result ≡ list_any (is_issue_of run target.now) self.now }
    {
        let Some(_call) = first_of(&self.places, run, target, &self.issues) else {
            return false;
        };
        true
    }

    /// Whether a call of the run is open.
    pub(crate) fn has_run(&self, run: u64) -> bool
        ensures { result ≡ has_open_call self.now run }
    {
        let Some(_call) = first_of_run(&self.places, run) else {
            return false;
        };
        true
    }

    /// The call of least number.
    pub(crate) fn first(&self) -> Option<u64>
        ensures { result ≡ option_map call_of (slice_get self.now 0) }
    {
        self.issues.first()
    }

    /// The calls stand in order of number. Does nothing.
    pub(crate) fn order(&self)
        ensures { AreInOrder self.now }
    {
        self.issues.order();
    }

    /// The calls by reference, in order of number.
    pub(crate) fn entries(&self) -> OpenCalls<'_>
        ensures { result ≡ self.now }
    {
        self.issues.entries()
    }
}
