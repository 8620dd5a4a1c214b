// Rows of the queues: which item comes first, how often a gate is asked, and when groups are looked at
// again.
ghost use Rattle.std.specs.Prelude.{◌≡◌, ◌<◌, ◌≤◌, [], IfOk};
ghost use Rattle.kinds.specs.Cells.{IsThrottle, IsStart, last_moment};

use concurrency_keys::ConcurrencyKeys;
use kinds::{Cell, CellLimit, CellLimits, Item, Shared, Steps};
use lists::{Bytes, Items, Memory};
use ready_queue::{Admission, Gate, ParkingQueue, ReadyQueue};
use std::alloc::Global;
use std::cell;
use std::marker::Brand;
use std::process::Abort;
use std::sync::ledger::{Blank, Ledger};
use std::test::Fail;
use throttle::Starts;

/// A cell of this value, which one call may have open.
fn cells(alloc: Global, value: u8) -> Result<CellLimits, Memory> {
    let value = Bytes::from_slice(alloc, &[value])?;
    let mut limits = Items::new(alloc);
    limits.push(CellLimit {
        cell: Cell::Env { value },
        limit: 1,
    })?;
    CellLimits::new(alloc, limits)
}

/// A throttle that lets a run start each second.
fn throttle(alloc: Global) -> Result<Cell, Memory>
    ensures { IfOk result IsThrottle }
{
    let function = Bytes::from_slice(alloc, b"f")?;
    Ok(Cell::Throttle {
        function,
        limit: 1,
        period: 1_000,
        burst: 1,
        key: None,
        value: Bytes::new(alloc),
    })
}

/// The score of an item, its due, and the value of its cell.
type Row = (i64, u64, u8);

fn item(alloc: Global, number: u64, row: &Row) -> Result<Item, Memory>
    ensures { IfOk result (λ i. IsStart i.start) }
{
    let (score, due, value) = *row;
    let target = Bytes::from_slice(alloc, b"step")?;
    let cells = cells(alloc, value)?;
    Ok(Item {
        number,
        run: number,
        target,
        attempt: 0,
        due,
        score,
        cells,
        start: None,
    })
}

/// The item waits for a start.
fn throttled(mut item: Item, start: Shared<Cell>) -> Item
    requires { IsThrottle start }
    ensures { IsStart result.start }
{
    item.start = Some(start);
    item
}

/// Puts an item in the place of one with its number.
fn put(queue: &mut ReadyQueue, item: Item) -> Result<(), Memory>
    requires { IsStart item.start }
{
    let _old = queue.take(item.number);
    queue.add(item)?;
    Ok(())
}

fn put_parking(queue: &mut ParkingQueue, item: Item) -> Result<(), Memory>
    requires { IsStart item.start }
    ensures full { queue.new.full ≡ queue.old.full }
    ensures later { queue.new.later ≡ queue.old.later }
{
    let _old = queue.take(item.number);
    queue.add(item)?;
    Ok(())
}

/// Is never open.
#[derive(Drop)]
struct Closed {
    /// How often it was asked.
    calls: cell::Cell<u64>,
}

impl Gate for Closed {
    ghost use Rattle.std.specs.Prelude.{false};

    ghost is_open = { λ g t cells start. false };

    fn open<L: Ledger>(
        &self,
        _cells: &CellLimits,
        _start: Option<&Cell>,
        _t: u64,
        steps: &mut Steps<L>,
    ) -> bool {
        steps.tick();
        self.calls.set(self.calls.get().wrapping_add(1));
        false
    }
}

/// A thousand items, the even ones with a cell of the first value, the odd ones of the second.
fn thousand(alloc: Global, values: &[u8; 2]) -> Result<ReadyQueue, Memory> {
    let mut queue = ReadyQueue::empty(alloc);
    for number in 0..1_000 {
        let row = (0, 0, values[(number % 2) as usize]);
        put(&mut queue, item(alloc, number, &row)?)?;
    }
    Ok(queue)
}

/// What comes first of a thousand items whose gate is closed, and how often this is asked.
fn least_of_closed<L: Ledger>(
    alloc: Global,
    blank: Blank,
    values: &[u8; 2],
) -> Result<(Option<u64>, u64), Memory>
    requires name { blank.name ≡ L.name }
    requires parts { blank.parts ≡ L.parts }
    requires some { 0 < blank.parts }
{
    let mut queue = thousand(alloc, values)?;
    queue.pass(5)?;
    let gate = Closed {
        calls: cell::Cell::new(0),
    };
    let mut steps = Steps::<L>::new(blank);
    let least = queue.least_admissible(5, &gate, &mut steps);
    Ok((least, gate.calls.get()))
}

#[test]
fn a_group_is_asked_for_once(rt: HostRuntime) -> Result<(), Fail> {
    for (values, most) in [([b'a', b'a'], 1), ([b'a', b'b'], 2)] {
        let (least, calls) = least_of_closed::<Brand>(rt.alloc(), Blank::new(1), &values)?;
        assert!(rt; least.is_none());
        assert!(rt; calls <= most);
    }
    Ok(())
}

fn queue_of(alloc: Global, rows: &[Row]) -> Result<ReadyQueue, Memory> {
    let mut queue = ReadyQueue::empty(alloc);
    let mut number: u64 = 0;
    for row in rows {
        number = number.wrapping_add(1);
        put(&mut queue, item(alloc, number, row)?)?;
    }
    Ok(queue)
}

/// The next moment of items whose cells and starts are free.
fn next_of(alloc: Global, queue: &ReadyQueue, t: u64) -> Option<u64>
    requires { t ≤ last_moment }
{
    let keys = ConcurrencyKeys::empty(alloc);
    let starts = Starts::empty(alloc);
    queue.next(t, &keys, &starts)
}

#[test]
fn items_come_and_go(rt: HostRuntime) -> Result<(), Fail> {
    let mut queue = queue_of(rt.alloc(), &[(-3, 5, b'a'), (4, 9, b'b')])?;
    assert_eq!(rt; next_of(rt.alloc(), &queue, 0), Some(5));
    assert_eq!(rt; next_of(rt.alloc(), &queue, 5), Some(9));
    queue.remove_run(1);
    assert_eq!(rt; queue.entries().count(), 1);
    assert!(rt; queue.take(2).is_some());
    Ok(())
}

/// Which of some items, numbered from 1, comes first at 5, where a call of one cell is open.
fn first<L: Ledger>(
    rt: &impl Abort,
    alloc: Global,
    blank: Blank,
    rows: &[Row],
    open: u8,
) -> Result<Option<u64>, Fail>
    requires name { blank.name ≡ L.name }
    requires parts { blank.parts ≡ L.parts }
    requires some { 0 < blank.parts }
{
    let mut queue = queue_of(alloc, rows)?;
    queue.pass(5)?;
    let mut keys = ConcurrencyKeys::empty(alloc);
    let starts = Starts::empty(alloc);
    let taken = cells(alloc, open)?;
    assert!(rt; keys.free(&taken));
    keys.enter(1, &taken)?;
    let gate = Admission {
        cells: &keys,
        throttle: &starts,
    };
    let mut steps = Steps::<L>::new(blank);
    Ok(queue.least_admissible(5, &gate, &mut steps))
}

#[test]
fn the_least_comes_first(rt: HostRuntime) -> Result<(), Fail> {
    let rows: [([Row; 3], u8, Option<u64>); 6] = [
        ([(7, 0, b'a'), (5, 0, b'a'), (6, 0, b'a')], b'x', Some(2)),
        ([(5, 0, b'a'), (5, 0, b'b'), (5, 0, b'a')], b'x', Some(1)),
        ([(5, 0, b'a'), (6, 0, b'b'), (7, 0, b'b')], b'a', Some(2)),
        ([(5, 9, b'a'), (6, 0, b'a'), (7, 0, b'b')], b'x', Some(2)),
        ([(-5, 5, b'a'), (-6, 6, b'b'), (-4, 0, b'c')], b'a', Some(3)),
        ([(5, 0, b'a'), (6, 0, b'a'), (7, 9, b'b')], b'a', None),
    ];
    for (items, open, wanted) in &rows {
        let found = first::<Brand>(&rt, rt.alloc(), Blank::new(1), items, *open)?;
        assert_eq!(rt; found, *wanted);
    }
    Ok(())
}

/// Two items of different cells, of which none is parked.
fn two_groups(alloc: Global) -> Result<ParkingQueue, Memory>
    ensures full { IfOk result (λ q. q.full ≡ []) }
    ensures later { IfOk result (λ q. q.later ≡ []) }
{
    let mut queue = ParkingQueue::empty(alloc);
    put_parking(&mut queue, item(alloc, 1, &(5, 0, b'a'))?)?;
    put_parking(&mut queue, item(alloc, 2, &(6, 0, b'b'))?)?;
    Ok(queue)
}

/// A group is parked at its full cell, and found again after this is freed.
fn freed<L: Ledger>(rt: &impl Abort, alloc: Global, blank: Blank) -> Result<(), Fail>
    requires name { blank.name ≡ L.name }
    requires parts { blank.parts ≡ L.parts }
    requires some { 0 < blank.parts }
{
    let mut queue = two_groups(alloc)?;
    let mut keys = ConcurrencyKeys::empty(alloc);
    let starts = Starts::empty(alloc);
    let taken = cells(alloc, b'a')?;
    assert!(rt; keys.free(&taken));
    keys.enter(1, &taken)?;
    let mut steps = Steps::<L>::new(blank);
    let open = queue.settle_next(0, &keys, &starts, &mut steps);
    assert_eq!(rt; open, Some(2));
    assert_eq!(rt; queue.next(0, &keys, &starts), None);
    keys.leave(1);
    queue.freed(&taken)?;
    let freed = queue.settle_next(0, &keys, &starts, &mut steps);
    assert_eq!(rt; freed, Some(1));
    Ok(())
}

#[test]
fn a_freed_group_is_found(rt: HostRuntime) -> Result<(), Fail> {
    freed::<Brand>(&rt, rt.alloc(), Blank::new(1))
}

/// An item that waits for a start, which isn't parked.
fn one_throttled(alloc: Global) -> Result<ParkingQueue, Memory>
    ensures full { IfOk result (λ q. q.full ≡ []) }
    ensures later { IfOk result (λ q. q.later ≡ []) }
{
    let start = throttle(alloc)?;
    let start = Shared::new(alloc, start)?;
    let item = throttled(item(alloc, 1, &(5, 0, b'a'))?, start);
    let mut queue = ParkingQueue::empty(alloc);
    put_parking(&mut queue, item)?;
    Ok(queue)
}

/// A throttled group is parked till its moment, and found when this has come.
fn let_start<L: Ledger>(rt: &impl Abort, alloc: Global, blank: Blank) -> Result<(), Fail>
    requires name { blank.name ≡ L.name }
    requires parts { blank.parts ≡ L.parts }
    requires some { 0 < blank.parts }
{
    let mut queue = one_throttled(alloc)?;
    let keys = ConcurrencyKeys::empty(alloc);
    let mut starts = Starts::empty(alloc);
    let cell = throttle(alloc)?;
    assert!(rt; starts.allowed(&cell, 0));
    starts.start(&cell, 0)?;
    let mut steps = Steps::<L>::new(blank);
    let held = queue.settle_next(0, &keys, &starts, &mut steps);
    assert_eq!(rt; held, None);
    assert_eq!(rt; queue.next(0, &keys, &starts), Some(1_000));
    queue.pass(999)?;
    let early = queue.settle_next(999, &keys, &starts, &mut steps);
    assert_eq!(rt; early, None);
    queue.pass(1_000)?;
    let due = queue.settle_next(1_000, &keys, &starts, &mut steps);
    assert_eq!(rt; due, Some(1));
    queue.remove_run(1);
    assert_eq!(rt; queue.entries().count(), 0);
    Ok(())
}

#[test]
fn a_throttled_group_is_found(rt: HostRuntime) -> Result<(), Fail> {
    let_start::<Brand>(&rt, rt.alloc(), Blank::new(1))
}
