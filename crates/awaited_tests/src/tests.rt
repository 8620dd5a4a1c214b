// Each call of each part.
ghost use Rattle.std.specs.Prelude.{◌≡◌, ◌<◌, [], IfOk};
ghost use Rattle.kinds.specs.Stores.{rule_number, wait_number};
ghost use Rattle.kinds.specs.Windows.{IsRule};
ghost use Rattle.awaited.specs.Entries.{sleep_number, invocation_number};

use awaited::{Invocation, Invocations, Placed, Rules, Sleep, Sleeps, Waits, WindowSet};
use expr::Expr;
use kinds::{
    Batch, Due, Event, Matcher, Parent, PathMatcher, Rule, StepHash, Steps, Wait, WindowRule,
};
use lists::{Bytes, Memory};
use std::alloc::Global;
use std::marker::Brand;
use std::sync::ledger::{Blank, Ledger};
use std::test::Fail;

/// No condition is true, and no event has a value.
#[derive(Drop)]
struct Never {}

impl Matcher for Never {
    ghost use Rattle.std.specs.Prelude.{false};

    ghost is_true = { λ m expr first fresh. false };

    fn holds<L: Ledger>(
        &self,
        _expr: &Expr,
        _first: u64,
        _fresh: &Event,
        steps: &mut Steps<L>,
    ) -> Result<bool, Memory> {
        steps.tick();
        Ok(false)
    }
}

impl PathMatcher for Never {
    ghost use Rattle.std.specs.Prelude.{None};

    ghost value_of = { λ m event path. None };

    fn value_at(&self, _event: &Event, _path: &[Bytes]) -> Result<Option<Bytes>, Memory> {
        Ok(None)
    }
}

fn hash(digit: u8) -> StepHash {
    StepHash::new([digit; 40])
}

fn due(due: u64, number: u64, run: u64) -> Option<Due> {
    Some(Due { due, number, run })
}

/// The entries of a test have numbers from 0 on, and these dues.
fn due_at(number: u64) -> u64 {
    match number {
        0 => 30,
        1 => 10,
        _ => 20,
    }
}

fn sleep(number: u64) -> Sleep
    ensures { sleep_number result ≡ number }
{
    Sleep {
        number,
        run: number % 2,
        hash: hash(97),
        due: due_at(number),
    }
}

fn sleeps(alloc: Global, count: u64) -> Result<Sleeps, Memory> {
    let mut sleeps = Sleeps::empty(alloc);
    for number in 0..count {
        sleeps.add(sleep(number))?;
    }
    Ok(sleeps)
}

fn invocation(number: u64) -> Invocation
    ensures { invocation_number result ≡ number }
{
    Invocation {
        number,
        run: 7,
        hash: hash(if number < 2 { 97 } else { 98 }),
        child: 9,
        due: Some(due_at(number)),
    }
}

fn invocations(alloc: Global, count: u64) -> Result<Invocations, Memory> {
    let mut invocations = Invocations::empty(alloc);
    for number in 0..count {
        invocations.add(invocation(number))?;
    }
    Ok(invocations)
}

fn rule(alloc: Global, number: u64) -> Result<Rule, Memory>
    ensures { IfOk result (λ r. rule_number r ≡ number) }
{
    Ok(Rule {
        number,
        run: number % 2,
        first: 1,
        name: Bytes::from_slice(alloc, b"y")?,
        cond: None,
        due: if number == 1 { Some(10) } else { None },
        bucket: None,
    })
}

fn rules(alloc: Global, count: u64) -> Result<Rules, Memory> {
    let mut rules = Rules::empty(alloc);
    for number in 0..count {
        rules.add(rule(alloc, number)?)?;
    }
    Ok(rules)
}

fn wait(alloc: Global, number: u64) -> Result<Wait, Memory>
    ensures { IfOk result (λ w. wait_number w ≡ number) }
{
    Ok(Wait {
        number,
        run: number % 2,
        first: 1,
        name: Bytes::from_slice(alloc, b"y")?,
        cond: None,
        due: due_at(number),
        bucket: None,
    })
}

fn waits(alloc: Global, count: u64) -> Result<Waits, Memory> {
    let mut waits = Waits::empty(alloc);
    for number in 0..count {
        waits.add(wait(alloc, number)?, hash(97))?;
    }
    Ok(waits)
}

#[test]
fn sleeps_end_in_order_of_due(rt: HostRuntime) -> Result<(), Fail> {
    let mut sleeps = sleeps(rt.alloc(), 3)?;
    assert_eq!(rt; sleeps.first(), due(10, 1, 1));
    assert_eq!(rt; sleeps.remove(1), Some(sleep(1)));
    assert_eq!(rt; sleeps.first(), due(20, 2, 0));
    assert_eq!(rt; sleeps.get(0).copied(), Some(sleep(0)));
    sleeps.drop_run(0);
    assert_eq!(rt; sleeps.first(), None);
    assert_eq!(rt; sleeps.entries().count(), 0);
    Ok(())
}

#[test]
fn invocations_go_by_step(rt: HostRuntime) -> Result<(), Fail> {
    let mut invocations = invocations(rt.alloc(), 4)?;
    assert_eq!(rt; invocations.first(), due(10, 1, 7));
    invocations.remove_of(&Parent {
        run: 7,
        hash: hash(97),
    });
    assert_eq!(rt; invocations.first(), due(20, 2, 7));
    assert_eq!(rt; invocations.get(1).copied(), None);
    assert_eq!(rt; invocations.remove(2), Some(invocation(2)));
    invocations.drop_run(7);
    assert_eq!(rt; invocations.entries().count(), 0);
    Ok(())
}

#[test]
fn rules_end_or_not(rt: HostRuntime) -> Result<(), Fail> {
    let mut rules = rules(rt.alloc(), 3)?;
    assert_eq!(rt; rules.first(), due(10, 1, 1));
    rules.remove(1);
    assert_eq!(rt; rules.first(), None);
    rules.drop_run(0);
    assert_eq!(rt; rules.entries().count(), 0);
    Ok(())
}

#[test]
fn waits_have_their_steps(rt: HostRuntime) -> Result<(), Fail> {
    let mut waits = waits(rt.alloc(), 3)?;
    assert_eq!(rt; waits.first(), due(10, 1, 1));
    assert_eq!(rt; waits.get(2).map(|step| step.due), Some(20));
    assert_eq!(rt; waits.remove(1).map(|step| step.hash), Some(hash(97)));
    assert_eq!(rt; waits.waits().count(), 2);
    waits.drop_run(0);
    assert_eq!(rt; waits.steps().count(), 0);
    Ok(())
}

/// What no rule and no wait gives of an event.
fn met_by_none<L: Ledger>(alloc: Global, blank: Blank) -> Result<usize, Memory>
    requires name { blank.name ≡ L.name }
    requires parts { blank.parts ≡ L.parts }
    requires some { 0 < blank.parts }
{
    let event = Event {
        number: 2,
        name: Bytes::from_slice(alloc, b"y")?,
        text: Bytes::new(alloc),
    };
    let mut steps = Steps::<L>::new(blank);
    let runs = Rules::empty(alloc).matches(&event, &Never {}, &mut steps)?;
    let numbers = Waits::empty(alloc).matches(&event, &Never {}, &mut steps)?;
    Ok(runs.len().max(numbers.len()))
}

#[test]
fn an_event_meets_none(rt: HostRuntime) -> Result<(), Fail> {
    assert_eq!(rt; met_by_none::<Brand>(rt.alloc(), Blank::new(1))?, 0);
    Ok(())
}

/// Whether a window was open before, and how many events made one full.
fn told(placed: Placed) -> (bool, usize) {
    match placed {
        Placed::Opened => (false, 0),
        Placed::Joined => (true, 0),
        Placed::Full { events, was_open } => (was_open, events.len()),
    }
}

/// Events wait for up to five seconds.
fn batch(size: u8) -> WindowRule
    ensures { IsRule result }
{
    WindowRule::Batch(Batch {
        size,
        timeout: 5_000,
        key: None,
    })
}

/// Event 7 is offered to no windows.
fn offered(alloc: Global, windows: &mut WindowSet, size: u8) -> Result<(bool, usize), Memory>
    requires { windows.old ≡ [] }
{
    let placed = windows.offer(1, &batch(size), &Bytes::new(alloc), 7, 1_000, 3)?;
    Ok(told(placed))
}

/// Whether event 7, event 3, and version 1 are named, and a window of the version is open.
fn named(alloc: Global, windows: &WindowSet) -> (bool, bool, bool, bool) {
    let key = (1, Bytes::new(alloc));
    (
        windows.names(7),
        windows.names(3),
        windows.names_version(1),
        windows.find(&key).is_some(),
    )
}

#[test]
fn a_window_is_open_till_its_due(rt: HostRuntime) -> Result<(), Fail> {
    let mut windows = WindowSet::empty(rt.alloc());
    assert_eq!(rt; offered(rt.alloc(), &mut windows, 2)?, (false, 0));
    assert_eq!(rt; windows.first(), due(6_000, 3, 0));
    assert_eq!(rt; named(rt.alloc(), &windows), (true, false, true, true));
    assert!(rt; windows.fire(3).is_some());
    assert_eq!(rt; named(rt.alloc(), &windows), (false, false, false, false));
    assert_eq!(rt; windows.entries().count(), 0);
    Ok(())
}

#[test]
fn a_full_window_is_over(rt: HostRuntime) -> Result<(), Fail> {
    let mut windows = WindowSet::empty(rt.alloc());
    assert_eq!(rt; offered(rt.alloc(), &mut windows, 1)?, (false, 1));
    assert_eq!(rt; windows.entries().count(), 0);
    Ok(())
}
