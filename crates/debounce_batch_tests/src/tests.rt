use debounce_batch::Windows;
use kinds::{Batch, Debounce, Fired, Offered, WindowRule};
use lists::Bytes;
use std::test::Fail;

/// The window's number, and when it is due where it isn't full.
fn told(offered: Offered) -> (u64, Option<u64>) {
    match offered {
        Offered::Waits { number, due } => (number, Some(due)),
        Offered::Full { number, .. } => (number, None),
    }
}

/// The version, the number of events and the first of them.
fn begun(fired: Option<Fired>) -> Option<(u64, usize, Option<u64>)> {
    let fired = fired?;
    Some((
        fired.version,
        fired.events.len(),
        fired.events.get(0).copied(),
    ))
}

#[test]
fn the_last_event_of_a_debounce(rt: HostRuntime) -> Result<(), Fail> {
    let rule = WindowRule::Debounce(Debounce {
        period: 10_000,
        timeout: Some(25_000),
        key: None,
    });
    let value = Bytes::new(rt.alloc());
    let mut windows = Windows::empty(rt.alloc());
    let first = told(windows.offer(1, &rule, &value, 1, 0, 1)?);
    let second = told(windows.offer(1, &rule, &value, 2, 9_000, 2)?);
    let third = told(windows.offer(1, &rule, &value, 3, 18_000, 2)?);
    assert_eq!(rt; first, (1, Some(10_000)));
    assert_eq!(rt; second, (1, Some(19_000)));
    assert_eq!(rt; third, (1, Some(25_000)));
    assert!(rt; windows.fire(2).is_none());
    assert_eq!(rt; begun(windows.fire(1)), Some((1, 1, Some(3))));
    assert_eq!(rt; windows.entries().count(), 0);
    Ok(())
}

#[test]
fn a_batch_of_two(rt: HostRuntime) -> Result<(), Fail> {
    let rule = WindowRule::Batch(Batch {
        size: 2,
        timeout: 5_000,
        key: None,
    });
    let value = Bytes::new(rt.alloc());
    let mut windows = Windows::empty(rt.alloc());
    let first = told(windows.offer(1, &rule, &value, 1, 0, 1)?);
    let second = told(windows.offer(1, &rule, &value, 2, 4_000, 2)?);
    let third = told(windows.offer(1, &rule, &value, 3, 4_000, 2)?);
    assert_eq!(rt; first, (1, Some(5_000)));
    assert_eq!(rt; second, (1, None));
    assert_eq!(rt; third, (2, Some(9_000)));
    assert_eq!(rt; begun(windows.fire(2)), Some((1, 1, Some(3))));
    Ok(())
}
