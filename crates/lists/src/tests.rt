use crate::{Bytes, Items};
use std::test::Fail;

#[test]
fn bytes_grow(rt: HostRuntime) -> Result<(), Fail> {
    let mut bytes = Bytes::with_room(rt.alloc(), 5)?;
    bytes.extend_from_slice(b"ab")?;
    bytes.push(b'c')?;
    bytes.extend_from_slice(b"de")?;
    assert_eq!(rt; bytes.as_slice(), b"abcde".as_slice());
    bytes.clear();
    assert!(rt; bytes.is_empty());
    bytes.push_decimal(18_446_744_073_709_551_615)?;
    let copy = bytes.clone()?;
    assert!(rt; copy == bytes);
    assert!(rt; Bytes::from_slice(rt.alloc(), b"18")? < copy);
    Ok(())
}

#[test]
fn items_grow(rt: HostRuntime) -> Result<(), Fail> {
    let mut items = Items::new(rt.alloc());
    items.push(7u64)?;
    items.push(9u64)?;
    assert_eq!(rt; items.as_slice(), [7u64, 9].as_slice());
    assert_eq!(rt; items.len(), 2);
    assert_eq!(rt; items.get(1).copied(), Some(9));
    assert!(rt; items.get(2).is_none());
    assert!(rt; items == items);
    let mut sum = 0u64;
    for item in items {
        sum = sum.saturating_add(item);
    }
    assert_eq!(rt; sum, 16);
    Ok(())
}
