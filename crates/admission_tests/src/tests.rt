// Each call of an admission, in rows of what is done and what is then seen.
ghost use Rattle.std.specs.Prelude.{◌≡◌, ◌<◌, IfOk};
ghost use Rattle.std.specs.Bool.{OnTrue};
ghost use Rattle.std.specs.List.{AllByRecursion};
ghost use Rattle.kinds.specs.Cells.{IsThrottle, IsStart};
ghost use Rattle.admission.specs.declared.issue.Issue.{Issue};

use admission::Admission;
use kinds::{Cell, CellLimit, CellLimits, Item, Shared, StepHash, Steps};
use lists::{Bytes, Items, Memory};
use std::alloc::Global;
use std::marker::Brand;
use std::process::Abort;
use std::sync::ledger::{Blank, Ledger};
use std::test::Fail;

/// The name of a step.
const NAME: [u8; 40] = [b'a'; 40];

/// A cell of this value, which one call may have open.
fn cells(alloc: Global, value: u8) -> Result<CellLimits, Memory> {
    let mut limits = Items::new(alloc);
    limits.push(CellLimit {
        cell: Cell::Env {
            value: Bytes::from_slice(alloc, &[value])?,
        },
        limit: 1,
    })?;
    CellLimits::new(alloc, limits)
}

/// A throttle that lets a run start each second.
fn throttle(alloc: Global) -> Result<Cell, Memory>
    ensures { IfOk result IsThrottle }
{
    Ok(Cell::Throttle {
        function: Bytes::from_slice(alloc, b"f")?,
        limit: 1,
        period: 1_000,
        burst: 1,
        key: None,
        value: Bytes::new(alloc),
    })
}

/// What is done to an admission.
#[derive(Clone, Copy)]
enum Act {
    /// Queues a run's item to find out what comes next, or for its step, with the value of its cell.
    Next(u64, u8),
    Step(u64, u8),
    /// Queues an item whose start the throttle is asked for.
    Start(u64, u8),
    /// Issues what comes next, as the call of this number.
    Issue(u64),
    Close(u64),
    CloseFirst,
    RemoveRun(u64),
    RemoveStep(u64),
    Arrive(u64),
}

fn item(
    alloc: Global,
    number: u64,
    run: u64,
    target: &[u8],
    value: u8,
    start: Option<Shared<Cell>>,
) -> Result<Item, Memory>
    requires { IsStart start }
    ensures { IfOk result (λ i. IsStart i.start) }
{
    Ok(Item {
        number,
        run,
        target: Bytes::from_slice(alloc, target)?,
        attempt: 0,
        due: 0,
        score: 0,
        cells: cells(alloc, value)?,
        start,
    })
}

/// Queues an item, unless one has its number.
fn queue(admission: &mut Admission, item: Item) -> Result<(), Memory>
    requires { IsStart item.start }
{
    if admission.item(item.number).is_none() {
        admission.add(item)?;
    }
    Ok(())
}

/// All open calls have lesser numbers.
fn is_above(admission: &Admission, call: u64) -> bool
    ensures { OnTrue result (AllByRecursion (λ (i : Issue). i.call < call) admission.now.issues) }
{
    for open in admission.issues() {
        if open.call >= call {
            return false;
        }
    }
    true
}

/// Issues what comes next, where all open calls have lesser numbers.
fn issue<L: Ledger>(
    admission: &mut Admission,
    call: u64,
    steps: &mut Steps<L>,
) -> Result<(), Memory> {
    let Some(number) = admission.next(steps) else {
        return Ok(());
    };
    if is_above(admission, call) {
        admission.issue(number, call, call.wrapping_add(100))?;
    }
    Ok(())
}

fn arrive(admission: &mut Admission, moment: u64) -> Result<(), Memory> {
    if admission.moment() <= moment && moment <= 10_000 {
        admission.arrive(moment)?;
    }
    Ok(())
}

/// Queues an item of a run.
fn queue_new(
    alloc: Global,
    admission: &mut Admission,
    number: u64,
    run: u64,
    target: &[u8],
    value: u8,
    start: Option<Shared<Cell>>,
) -> Result<(), Memory>
    requires { IsStart start }
{
    let item = item(alloc, number, run, target, value, start)?;
    queue(admission, item)
}

fn close(admission: &mut Admission, call: u64) -> Result<(), Memory> {
    let _issue = admission.close(call)?;
    Ok(())
}

fn close_first(admission: &mut Admission) -> Result<(), Memory> {
    let _issue = admission.take_first()?;
    Ok(())
}

fn perform<L: Ledger>(
    alloc: Global,
    admission: &mut Admission,
    number: u64,
    act: Act,
    steps: &mut Steps<L>,
) -> Result<(), Memory> {
    match act {
        Act::Next(run, value) => queue_new(alloc, admission, number, run, b"step", value, None),
        Act::Step(run, value) => queue_new(alloc, admission, number, run, &NAME, value, None),
        Act::Start(run, value) => {
            let start = Some(Shared::new(alloc, throttle(alloc)?)?);
            queue_new(alloc, admission, number, run, b"step", value, start)
        }
        Act::Issue(call) => issue(admission, call, steps),
        Act::Close(call) => close(admission, call),
        Act::CloseFirst => close_first(admission),
        Act::RemoveRun(run) => {
            admission.remove_run(run);
            Ok(())
        }
        Act::RemoveStep(run) => {
            admission.remove_step(run, &StepHash::new(NAME));
            Ok(())
        }
        Act::Arrive(moment) => arrive(admission, moment),
    }
}

/// How many items and open calls there are, the item that is issued next, and the first call whose
/// limit is reached.
type Seen = (usize, usize, Option<u64>, Option<u64>);

type Row = (Act, Seen);

const ROWS: [Row; 16] = [
    (Act::Next(7, b'a'), (1, 0, Some(0), None)),
    (Act::Step(7, b'a'), (2, 0, Some(0), None)),
    (Act::Step(8, b'b'), (3, 0, Some(0), None)),
    (Act::Issue(1), (2, 1, Some(2), Some(1))),
    (Act::Issue(2), (1, 2, None, Some(1))),
    (Act::Close(1), (1, 1, Some(1), Some(2))),
    (Act::RemoveStep(7), (0, 1, None, Some(2))),
    (Act::Start(9, b'c'), (1, 1, Some(7), Some(2))),
    (Act::Start(10, b'd'), (2, 1, Some(7), Some(2))),
    (Act::Issue(3), (1, 2, None, Some(2))),
    (Act::Arrive(999), (1, 2, None, Some(2))),
    (Act::Arrive(1_000), (1, 2, Some(8), Some(2))),
    (Act::CloseFirst, (1, 1, Some(8), Some(3))),
    (Act::Issue(4), (0, 2, None, Some(3))),
    (Act::Step(10, b'e'), (1, 2, Some(14), Some(3))),
    (Act::RemoveRun(10), (0, 2, None, Some(3))),
];

fn seen<L: Ledger>(admission: &mut Admission, steps: &mut Steps<L>) -> Seen {
    let next = admission.next(steps);
    let first = match admission.first_limit() {
        Some(limit) => Some(limit.call),
        None => None,
    };
    (
        admission.items().count(),
        admission.issues().count(),
        next,
        first,
    )
}

/// Does what the rows say, each time with the row's place as the number of an item.
fn walk<L: Ledger>(
    rt: &impl Abort,
    alloc: Global,
    admission: &mut Admission,
    rows: &[Row],
    steps: &mut Steps<L>,
) -> Result<(), Fail> {
    let mut number = 0;
    for (done, wanted) in rows {
        perform(alloc, admission, number, *done, steps)?;
        let found = seen(admission, steps);
        assert!(rt; found == *wanted);
        number = number.wrapping_add(1);
    }
    Ok(())
}

/// What is there after all rows.
fn look(rt: &impl Abort, admission: &Admission) {
    assert_eq!(rt; admission.starts().count(), 1);
    assert!(rt; admission.has_call(9, b"step") && admission.has_open_call(10));
    assert!(rt; !admission.has_call(9, &NAME) && !admission.has_open_call(8));
    assert!(rt; admission.is_open(4) && admission.open_issue(5).is_none());
}

fn walk_and_look<L: Ledger>(rt: &impl Abort, alloc: Global, blank: Blank) -> Result<(), Fail>
    requires name { blank.name ≡ L.name }
    requires parts { blank.parts ≡ L.parts }
    requires some { 0 < blank.parts }
{
    let mut admission = Admission::empty(alloc);
    let mut steps = Steps::<L>::new(blank);
    walk(rt, alloc, &mut admission, &ROWS, &mut steps)?;
    look(rt, &admission);
    Ok(())
}

#[test]
fn items_and_calls_come_and_go(rt: HostRuntime) -> Result<(), Fail> {
    walk_and_look::<Brand>(&rt, rt.alloc(), Blank::new(1))
}

/// Ten items of three runs, for their steps.
fn ten(alloc: Global) -> Result<Admission, Memory> {
    let mut admission = Admission::empty(alloc);
    for number in 0..10 {
        queue_new(alloc, &mut admission, number, number / 4, &NAME, b'a', None)?;
    }
    Ok(admission)
}

#[test]
fn items_are_found_by_run_and_target(rt: HostRuntime) -> Result<(), Fail> {
    let mut admission = ten(rt.alloc())?;
    assert!(rt; admission.has_item(1, &NAME) && !admission.has_item(1, b"step"));
    admission.remove_step(1, &StepHash::new(NAME));
    assert!(rt; !admission.has_item(1, &NAME) && !admission.has_items_of(1));
    assert!(rt; admission.has_items_of(0) && admission.has_items_of(2));
    assert_eq!(rt; admission.items().count(), 6);
    assert_eq!(rt; admission.next_item(), None);
    Ok(())
}
