use crate::ConcurrencyKeys;
use kinds::{Cell, CellLimit, CellLimits};
use lists::{Bytes, Items, Memory};
use std::alloc::Global;
use std::test::Fail;

fn env(alloc: Global, value: &[u8], limit: u32) -> Result<CellLimit, Memory> {
    Ok(CellLimit {
        cell: Cell::Env {
            value: Bytes::from_slice(alloc, value)?,
        },
        limit,
    })
}

fn one(alloc: Global, limit: CellLimit) -> Result<CellLimits, Memory> {
    let mut limits = Items::new(alloc);
    limits.push(limit)?;
    CellLimits::new(alloc, limits)
}

#[test]
fn issues_count_in_their_cells(rt: HostRuntime) -> Result<(), Fail> {
    let mut keys = ConcurrencyKeys::empty(rt.alloc());
    let a = one(rt.alloc(), env(rt.alloc(), b"sa", 2)?)?;
    let b = one(rt.alloc(), env(rt.alloc(), b"sb", 1)?)?;
    assert!(rt; keys.free(&a));
    keys.enter(1, &a)?;
    assert!(rt; keys.free(&a));
    keys.enter(2, &a)?;
    assert!(rt; !keys.free(&a));
    assert!(rt; keys.free(&b));
    keys.leave(3);
    assert!(rt; !keys.free(&a));
    keys.leave(1);
    assert!(rt; keys.free(&a));
    assert_eq!(rt; keys.entries().count(), 1);
    keys.leave(2);
    assert_eq!(rt; keys.entries().count(), 0);
    assert!(rt; keys.free(&a));
    Ok(())
}

#[test]
fn a_cell_named_twice_counts_once(rt: HostRuntime) -> Result<(), Fail> {
    let mut keys = ConcurrencyKeys::empty(rt.alloc());
    let mut limits = Items::new(rt.alloc());
    limits.push(env(rt.alloc(), b"sa", 3)?)?;
    limits.push(env(rt.alloc(), b"sa", 2)?)?;
    let twice = CellLimits::new(rt.alloc(), limits)?;
    let wide = one(rt.alloc(), env(rt.alloc(), b"sa", 3)?)?;
    assert!(rt; keys.free(&twice));
    keys.enter(1, &twice)?;
    assert!(rt; keys.free(&twice));
    assert!(rt; keys.free(&wide));
    keys.enter(2, &wide)?;
    assert!(rt; !keys.free(&twice));
    assert!(rt; keys.free(&wide));
    Ok(())
}
