// Cancel rules in order of number.
ghost use Rattle.std.specs.Prelude.{◌≡◌, ◌≤◌, ◌+◌, [], find, None, OnOk, OnErr, IfOk};
ghost use Rattle.lists.specs.Entries.{has, without};
ghost use Rattle.kinds.specs.Stores.{rule_number, rule_run, rule_condition, insert_rule, cancelled};
ghost use Rattle.kinds.specs.Stores.{AreBucketsRight};
ghost use Rattle.matching.specs.Met.{asked_count};

use kinds::{Event, Numbers, PathMatcher, Rule, Steps};
use lists::Memory;
use matching::Index;
use ordered::Entries;
use std::alloc::Global;
use std::marker::Model;
use std::sync::ledger::Ledger;

/// By what events runs are cancelled, each rule with a number of its own. Contracts see the list of
/// rules in order of number.
#[derive(Drop)]
pub struct CancelRules {
    rules: Index<Rule>,
}

impl Model for CancelRules {
    ghost use Rattle.std.specs.Prelude.{List};
    ghost use Rattle.kinds.specs.declared.store.Rule.{Rule};

    ghost Value = { List Rule };

    ghost view = { λ r. r.rules };
}

impl CancelRules {
    /// Rules without entries, which takes no memory.
    pub fn empty(alloc: Global) -> Self
        ensures { result ≡ [] }
    {
        CancelRules {
            rules: Index::empty(alloc),
        }
    }

    /// Adds a rule whose number is held by none.
    pub fn add(&mut self, rule: Rule) -> Result<(), Memory>
        requires new { find (has rule_number (rule_number rule)) self.old ≡ None }
        ensures ok { OnOk result (self.new ≡ insert_rule rule self.old) }
        ensures err { OnErr result (self.new ≡ self.old) }
    {
        self.rules.add(rule)
    }

    /// Drops the rules of a run. Looks at these alone.
    pub fn remove_run(&mut self, run: u64)
        ensures { self.new ≡ without rule_run run self.old }
    {
        self.rules.drop_run(run);
    }

    /// Drops the rule that has a number, if there is one.
    pub fn expire(&mut self, number: u64)
        ensures { self.new ≡ without rule_number number self.old }
    {
        self.rules.drop_number(number);
    }

    /// The runs of all rules of the event's name whose condition is absent or true, each once, in order.
    /// The caller owes that no bucket hides a rule whose condition is true of the event. Evaluated are
    /// at most the rules of the event's bucket and the rules of its name without one.
    pub fn matches<M: PathMatcher, L: Ledger>(
        &self,
        event: &Event,
        matcher: &M,
        steps: &mut Steps<L>,
    ) -> Result<Numbers, Memory>
        requires right { AreBucketsRight rule_condition (M.is_true matcher.now) (M.value_of matcher.now)
            event.now self.now }
        ensures cancelled { IfOk result
            (λ rs. rs ≡ cancelled (M.is_true matcher.now) event.now self.now) }
        ensures asked { steps.new ≤ steps.old
            + asked_count rule_condition (M.value_of matcher.now) event.now self.now }
    {
        self.rules.runs(event, matcher, steps)
    }

    /// The rules by reference, in order of number.
    pub fn entries(&self) -> Entries<'_, Rule>
        ensures { result ≡ self.now }
    {
        self.rules.entries()
    }
}
