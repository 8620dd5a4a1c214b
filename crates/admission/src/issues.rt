// Open calls under their numbers.
ghost use Rattle.std.specs.Prelude.{◌≡◌, ◌<◌, ◌++◌, ◌∷◌, [], find, OnOk, OnErr};
ghost use Rattle.std.specs.List.{AllByRecursion, slice_get};
ghost use Rattle.std.specs.Option.{option_copied, option_map};
ghost use Rattle.admission.specs.Issues.{AreInOrder, call_of, has_call, without_call};
ghost use Rattle.admission.specs.Indexes.{is_target, item_in};
ghost use Rattle.admission.specs.declared.issue.Issue.{Issue};

use crate::OpenCalls;
use crate::issue::Issue;
use crate::place::Targets;
use lists::Memory;
use std::alloc::Global;
use std::collections::BTreeMap;
use std::marker::Model;

/// Open calls under their numbers.
#[derive(Drop)]
pub(crate) struct Issues {
    issues: BTreeMap<u64, Issue>,
}

impl Model for Issues {
    ghost use Rattle.std.specs.Prelude.{List};
    ghost use Rattle.std.specs.BTreeMap.{values};
    ghost use Rattle.std.specs.Ordering.{nat_cmp};
    ghost use Rattle.lists.proofs.Stored.{IsStored};
    ghost use Rattle.admission.specs.Issues.{call_of};
    ghost use Rattle.admission.specs.declared.issue.Issue.{Issue};

    ghost Value = { List Issue };

    ghost view = { λ i. values i.issues };

    ghost invariant = { λ i. IsStored nat_cmp call_of i.issues.entries };
}

impl Issues {
    pub(crate) fn empty(alloc: Global) -> Self
        ensures { result ≡ [] }
    {
        Issues {
            issues: BTreeMap::new(alloc),
        }
    }

    /// Adds a call whose number is above all.
    pub(crate) fn push(&mut self, issue: Issue) -> Result<(), Memory>
        requires below { AllByRecursion (λ (i : Issue). i.call < issue.call) self.old }
        ensures ok { OnOk result (self.new ≡ self.old ++ issue ∷ []) }
        ensures err { OnErr result (self.new ≡ self.old) }
    {
        self.issues.insert(issue.call, issue)?;
        Ok(())
    }

    pub(crate) fn get(&self, call: u64) -> Option<&Issue>
        ensures { option_copied result ≡ find (has_call call) self.now }
    {
        self.issues.get(&call)
    }

    pub(crate) fn take(&mut self, call: u64) -> Option<Issue>
        ensures value { result ≡ find (has_call call) self.old }
        ensures left { self.new ≡ without_call call self.old }
    {
        self.issues.remove(&call)
    }

    /// The call of least number.
    pub(crate) fn first(&self) -> Option<u64>
        ensures { result ≡ option_map call_of (slice_get self.now 0) }
    {
        let (call, _) = self.issues.first_key_value()?;
        Some(*call)
    }

    /// The calls stand in order of number. Does nothing.
    pub(crate) fn order(&self)
        ensures { AreInOrder self.now }
    {
        let _ = &self.issues;
    }

    /// The calls by reference, in order of number.
    pub(crate) fn entries(&self) -> OpenCalls<'_>
        ensures { result ≡ self.now }
    {
        OpenCalls::new(self.issues.values())
    }
}

impl Targets for Issues {
    ghost use Rattle.std.specs.Prelude.{find};
    ghost use Rattle.admission.specs.Indexes.{is_target, item_in};
    ghost use Rattle.admission.specs.Issues.{has_call};

    ghost is_target = { λ issues target n. is_target target (item_in (find (has_call n) issues)) };

    fn is_target(&self, target: &[u8], number: u64) -> bool {
        match self.get(number) {
            Some(issue) => target == issue.item.target.as_slice(),
            None => false,
        }
    }
}
