ghost use Rattle.std.specs.Prelude.{◌≡◌, ◌<◌, ◌≤◌, ◌+◌, ◌-◌, ◌/◌, IfOk};
ghost use Rattle.kinds.specs.Cells.{IsThrottle, spacing};

use crate::Starts;
use kinds::Cell;
use lists::{Bytes, Memory};
use std::alloc::Global;
use std::process::Abort;
use std::test::Fail;

const LAST: u64 = 253_402_300_799_999;

/// A throttle without a key.
fn throttle(alloc: Global, limit: u32, period: u64, burst: u32) -> Result<Cell, Memory>
    requires limit { 0 < limit }
    requires limit_most { limit ≤ 1000000 }
    requires period { 0 < period }
    requires period_most { period ≤ 31622400000 }
    requires burst { 0 < burst }
    requires burst_most { burst ≤ 1000000 }
    ensures throttle { IfOk result (λ c. IsThrottle c) }
    ensures spacing { IfOk result (λ c. spacing c ≡ (period + (limit - 1)) / limit) }
{
    Ok(Cell::Throttle {
        function: Bytes::from_slice(alloc, b"f")?,
        limit,
        period,
        burst,
        key: None,
        value: Bytes::new(alloc),
    })
}

/// The inequality for each earlier start, in a plain loop.
fn lets(starts: &[u64], t: u64, spacing: u64, burst: u32) -> bool {
    let ahead = (burst as u64).saturating_sub(1).saturating_mul(spacing);
    for k in 0..starts.len() {
        let from_here = (starts.len() - k) as u64;
        let since = t.saturating_sub(starts[k]);
        if from_here.saturating_mul(spacing) > since.saturating_add(ahead) {
            return false;
        }
    }
    true
}

/// Two hundred moments at random, a start at each one that is let, and each answer beside the plain loop's.
fn follows(
    rt: &impl Abort,
    alloc: Global,
    cell: &Cell,
    spacing: u64,
    burst: u32,
) -> Result<(), Fail>
    requires { IsThrottle cell.now }
{
    let mut starts = Starts::empty(alloc);
    let mut made: Vec<u64> = Vec::new(alloc);
    let mut seed: u64 = 20_261_201;
    let mut t: u64 = 0;
    for _ in 0..200 {
        seed = seed
            .wrapping_mul(6_364_136_223_846_793_005)
            .wrapping_add(1_442_695_040_888_963_407);
        t = t
            .saturating_add((seed >> 33) % spacing.saturating_mul(2).max(1))
            .min(LAST);
        let release = starts.release_moment(cell);
        assert!(rt; lets(made.as_slice(), release.max(t), spacing, burst));
        if t < release {
            assert!(rt; !lets(made.as_slice(), release.saturating_sub(1), spacing, burst));
        }
        let expected = lets(made.as_slice(), t, spacing, burst);
        assert_eq!(rt; starts.allowed(cell, t), expected);
        if starts.allowed(cell, t) {
            starts.start(cell, t)?;
            made.push(t)?;
        }
    }
    assert!(rt; made.len() > 50);
    Ok(())
}

/// The limit, the period, the burst and the time between two starts.
const ROWS: [(u32, u64, u32, u64); 7] = [
    (1, 1000, 1, 1000),
    (3, 1000, 1, 334),
    (2, 60_000, 5, 30_000),
    (7, 86_400_000, 40, 12_342_858),
    (1_000_000, 1, 1, 1),
    (1, 1_000_000, 1_000_000, 1_000_000),
    (999_999, 1_000_000, 3, 2),
];

#[test]
fn starts_follow_the_inequality(rt: HostRuntime) -> Result<(), Fail> {
    for (limit, period, burst, spacing) in ROWS {
        assert!(rt; 0 < limit && limit <= 1_000_000);
        assert!(rt; 0 < period && period <= 31_622_400_000);
        assert!(rt; 0 < burst && burst <= 1_000_000);
        let cell = throttle(rt.alloc(), limit, period, burst)?;
        follows(&rt, rt.alloc(), &cell, spacing, burst)?;
    }
    Ok(())
}

#[test]
fn a_cell_is_restored_and_forgotten(rt: HostRuntime) -> Result<(), Fail> {
    let cell = throttle(rt.alloc(), 1, 1000, 1)?;
    let mut starts = Starts::empty(rt.alloc());
    assert!(rt; starts.allowed(&cell, 0));
    assert_eq!(rt; starts.release_moment(&cell), 0);
    starts.restore(&cell, 5000)?;
    assert_eq!(rt; starts.release_moment(&cell), 5000);
    assert!(rt; !starts.allowed(&cell, 4999));
    assert!(rt; starts.allowed(&cell, 5000));
    starts.start(&cell, 6000)?;
    assert_eq!(rt; starts.release_moment(&cell), 7000);
    assert_eq!(rt; starts.entries().count(), 1);
    starts.forget(6999);
    assert_eq!(rt; starts.entries().count(), 1);
    starts.forget(7000);
    assert_eq!(rt; starts.entries().count(), 0);
    Ok(())
}
