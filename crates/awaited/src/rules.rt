// Rules by which events cancel runs.
ghost use Rattle.std.specs.Prelude.{◌≡◌, ◌<◌, ◌≤◌, ◌+◌, ◌++◌, ◌∷◌, [], OnOk, OnErr, IfOk};
ghost use Rattle.std.specs.Option.{option_map};
ghost use Rattle.std.specs.List.{AllByRecursion};
ghost use Rattle.lists.specs.Entries.{without};
ghost use Rattle.kinds.specs.Stores.{rule_number, rule_run, rule_condition, cancelled, AreBucketsRight};
ghost use Rattle.matching.specs.Met.{asked_count};
ghost use Rattle.timers.specs.Dues.{as_due, least_due};
ghost use Rattle.awaited.specs.Entries.{rule_due};

use crate::dues::{first_of, put_due};
use cancel_rules::CancelRules;
use kinds::{Due, Event, Numbers, PathMatcher, Rule, Steps};
use lists::Memory;
use ordered::Entries;
use std::alloc::Global;
use std::marker::Model;
use std::sync::ledger::Ledger;
use timers::Timers;

/// By what events runs are cancelled, each rule with a number of its own, and with an end or none.
/// Contracts see the list of rules in order of number.
#[derive(Drop)]
pub struct Rules {
    rules: CancelRules,
    dues: Timers,
}

impl Model for Rules {
    ghost use Rattle.std.specs.Prelude.{List};
    ghost use Rattle.kinds.specs.declared.store.Rule.{Rule};
    ghost use Rattle.awaited.specs.Beside.{IsRulesKept};

    ghost Value = { List Rule };

    ghost view = { λ r. r.rules };

    ghost invariant = { λ r. IsRulesKept r.rules r.dues };
}

impl Rules {
    /// No rules, which takes no memory.
    pub fn empty(alloc: Global) -> Self
        ensures { result ≡ [] }
    {
        Rules {
            rules: CancelRules::empty(alloc),
            dues: Timers::empty(alloc),
        }
    }

    /// Adds a rule whose number is above all.
    pub fn add(&mut self, rule: Rule) -> Result<(), Memory>
        requires below { AllByRecursion (λ e. rule_number e < rule_number rule) self.old }
        ensures ok { OnOk result (self.new ≡ self.old ++ rule ∷ []) }
        ensures err { OnErr result (self.new ≡ self.old) }
    {
        let number = rule.number;
        put_due(&mut self.dues, rule.due, number, rule.run)?;
        match self.rules.add(rule) {
            Ok(()) => Ok(()),
            Err(_) => {
                self.dues.drop_number(number);
                return Err(Memory);
            }
        }
    }

    /// Drops the rule that has a number, if there is one.
    pub fn remove(&mut self, number: u64)
        ensures { self.new ≡ without rule_number number self.old }
    {
        self.dues.drop_number(number);
        self.rules.expire(number);
    }

    /// Drops the rules of a run. Looks at these alone.
    pub fn drop_run(&mut self, run: u64)
        ensures { self.new ≡ without rule_run run self.old }
    {
        self.dues.drop_run(run);
        self.rules.remove_run(run);
    }

    /// The least due of the rules that have one, with the rule's number and run; of those that tie the one
    /// of the least number.
    pub fn first(&self) -> Option<Due>
        ensures { result
            ≡ option_map (as_due rule_number rule_run) (least_due rule_due rule_number self.now) }
    {
        first_of(&self.dues)
    }

    /// The runs of all rules of the event's name whose condition is absent or true, each once, in order.
    /// The caller owes that no bucket hides a rule whose condition is true of the event. Evaluated are at
    /// most the rules of the event's bucket and the rules of its name without one.
    pub fn matches<M: PathMatcher, L: Ledger>(
        &self,
        event: &Event,
        matcher: &M,
        steps: &mut Steps<L>,
    ) -> Result<Numbers, Memory>
        requires right { AreBucketsRight rule_condition (M.is_true matcher.now) (M.value_of matcher.now)
            event.now self.now }
        ensures cancelled { IfOk result
            (λ rs. rs ≡ cancelled (M.is_true matcher.now) event.now self.now) }
        ensures asked { steps.new ≤ steps.old
            + asked_count rule_condition (M.value_of matcher.now) event.now self.now }
    {
        self.rules.matches(event, matcher, steps)
    }

    /// The rules by reference, in order of number.
    pub fn entries(&self) -> Entries<'_, Rule>
        ensures { result ≡ self.now }
    {
        self.rules.entries()
    }
}
