// Open calls with the order of their limits.
ghost use Rattle.std.specs.Prelude.{◌≡◌, ◌<◌, ◌++◌, ◌∷◌, [], find, OnOk, OnErr};
ghost use Rattle.std.specs.List.{AllByRecursion, list_any, slice_get};
ghost use Rattle.std.specs.Option.{option_copied, option_map};
ghost use Rattle.lists.specs.Entries.{AreApart};
ghost use Rattle.admission.specs.Issues.{call_of, has_call, without_call, is_issue_of, has_open_call};
ghost use Rattle.admission.specs.Issues.{first_due, limit_of};
ghost use Rattle.admission.specs.declared.issue.Issue.{Issue};

use crate::OpenCalls;
use crate::issue::{CallLimit, Issue};
use crate::placed::Placed;
use lists::Memory;
use std::alloc::Global;
use std::collections::BTreeSet;
use std::marker::Model;

/// Open calls, and which of their limits is reached first.
#[derive(Drop)]
pub(crate) struct Calls {
    placed: Placed,
    limits: BTreeSet<((u64, u64), u64)>,
}

impl Model for Calls {
    ghost use Rattle.std.specs.Prelude.{List};
    ghost use Rattle.lists.specs.Entries.{pair_cmp};
    ghost use Rattle.ordered.specs.Indexes.{IsListed};
    ghost use Rattle.admission.specs.Indexes.{limit_key};
    ghost use Rattle.admission.specs.Issues.{call_of};
    ghost use Rattle.admission.specs.declared.issue.Issue.{Issue};

    ghost Value = { List Issue };

    ghost view = { λ c. c.placed };

    ghost invariant = { λ c. IsListed pair_cmp limit_key call_of c.placed c.limits.keys };
}

impl Calls {
    pub(crate) fn empty(alloc: Global) -> Self
        ensures { result ≡ [] }
    {
        Calls {
            placed: Placed::empty(alloc),
            limits: BTreeSet::new(alloc),
        }
    }

    /// Adds a call whose number is above all.
    pub(crate) fn push(&mut self, issue: Issue) -> Result<(), Memory>
        requires below { AllByRecursion (λ (i : Issue). i.call < issue.call) self.old }
        ensures ok { OnOk result (self.new ≡ self.old ++ issue ∷ []) }
        ensures err { OnErr result (self.new ≡ self.old) }
    {
        let limit = ((issue.due, issue.limit), issue.call);
        self.limits.insert(limit)?;
        match self.placed.push(issue) {
            Ok(()) => Ok(()),
            Err(_) => {
                self.limits.remove(&limit);
                Err(Memory)
            }
        }
    }

    pub(crate) fn get(&self, call: u64) -> Option<&Issue>
        ensures value { option_copied result ≡ find (has_call call) self.now }
        ensures apart { AreApart call_of self.now }
    {
        self.placed.get(call)
    }

    pub(crate) fn take(&mut self, call: u64) -> Option<Issue>
        ensures value { result ≡ find (has_call call) self.old }
        ensures left { self.new ≡ without_call call self.old }
    {
        let issue = self.placed.take(call)?;
        self.limits.remove(&((issue.due, issue.limit), call));
        Some(issue)
    }

    /// The limit that is the least by due and number.
    pub(crate) fn first_limit(&self) -> Option<CallLimit>
        ensures { result ≡ option_map limit_of (first_due self.now) }
    {
        self.placed.order();
        let Some(first) = self.limits.first() else {
            return None;
        };
        let ((due, number), call) = *first;
        Some(CallLimit { due, number, call })
    }

    /// Whether a call of the run's target is open.
    pub(crate) fn has(&self, run: u64, target: &[u8]) -> bool
        ensures { result ≡ list_any (is_issue_of run target.now) self.now }
    {
        self.placed.has(run, target)
    }

    /// Whether a call of the run is open.
    pub(crate) fn has_run(&self, run: u64) -> bool
        ensures { result ≡ has_open_call self.now run }
    {
        self.placed.has_run(run)
    }

    /// The call of least number.
    pub(crate) fn first(&self) -> Option<u64>
        ensures first { result ≡ option_map call_of (slice_get self.now 0) }
        ensures apart { AreApart call_of self.now }
    {
        self.placed.first()
    }

    /// The calls by reference, in order of number.
    pub(crate) fn entries(&self) -> OpenCalls<'_>
        ensures { result ≡ self.now }
    {
        self.placed.entries()
    }
}
