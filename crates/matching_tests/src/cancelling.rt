// Which runs an event cancels, and how rules go.
ghost use Rattle.std.specs.Prelude.{◌≡◌, ◌<◌, IfOk};
ghost use Rattle.kinds.specs.Stores.{rule_number, rule_condition};
ghost use Rattle.matching_tests.specs.Rows.{OnOwn, AreOnOwn};

use crate::matcher::{OwnNumber, condition, digits, event};
use cancel_rules::CancelRules;
use expr::Expr;
use kinds::{Numbers, Rule, Steps};
use lists::{Bytes, Memory};
use std::alloc::Global;
use std::marker::Brand;
use std::sync::ledger::{Blank, Ledger};
use std::test::Fail;

/// A rule for a run whose first event has the run's number.
fn rule(alloc: Global, number: u64, run: u64, cond: Option<Expr>) -> Result<Rule, Memory>
    ensures number { IfOk result (λ r. rule_number r ≡ number) }
    ensures own { IfOk result (λ r. OnOwn (rule_condition r)) }
{
    let name = Bytes::from_slice(alloc, b"y")?;
    Ok(Rule {
        number,
        run,
        first: run,
        name,
        cond,
        due: None,
        bucket: None,
    })
}

/// A rule for each run, with its place as its number. Those of odd runs have a condition.
fn rules(alloc: Global, runs: &[u64]) -> Result<CancelRules, Memory>
    ensures { IfOk result (AreOnOwn rule_condition) }
{
    let mut rules = CancelRules::empty(alloc);
    for number in 0..runs.len() {
        let cond = condition_of(alloc, runs[number])?;
        rules.add(rule(alloc, number as u64, runs[number], cond)?)?;
    }
    Ok(rules)
}

fn condition_of(alloc: Global, run: u64) -> Result<Option<Expr>, Memory> {
    if run % 2 == 1 {
        Ok(Some(condition(alloc)?))
    } else {
        Ok(None)
    }
}

/// The runs that the event with a number cancels, and how many conditions were evaluated.
fn cancelled<L: Ledger>(
    alloc: Global,
    blank: Blank,
    rules: &CancelRules,
    number: u64,
) -> Result<(Numbers, u64), Memory>
    requires name { blank.name ≡ L.name }
    requires parts { blank.parts ≡ L.parts }
    requires some { 0 < blank.parts }
    requires own { AreOnOwn rule_condition rules.now }
{
    let event = event(alloc, number)?;
    let matcher = OwnNumber::new(digits(alloc, number)?);
    let mut steps = Steps::<L>::new(blank);
    let runs = rules.matches(&event, &matcher, &mut steps)?;
    Ok((runs, matcher.calls()))
}

#[test]
fn each_run_is_cancelled_once(rt: HostRuntime) -> Result<(), Fail> {
    let rules = rules(rt.alloc(), &[7, 2, 3, 7])?;
    let (runs, calls) = cancelled::<Brand>(rt.alloc(), Blank::new(1), &rules, 7)?;
    assert_eq!(rt; runs.as_slice(), [2, 7].as_slice());
    assert_eq!(rt; calls, 3);
    Ok(())
}

#[test]
fn rules_go_by_number_and_run(rt: HostRuntime) -> Result<(), Fail> {
    let mut rules = rules(rt.alloc(), &[7, 3, 7, 5])?;
    rules.expire(3);
    rules.remove_run(7);
    rules.remove_run(0);
    let mut left = [1].iter();
    for rule in rules.entries() {
        assert_eq!(rt; Some(&rule.number), left.next());
    }
    assert!(rt; left.next().is_none());
    Ok(())
}
