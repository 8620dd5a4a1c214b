// Each call.
use crate::Texts;
use event_keys::EventTexts;
use lists::{Bytes, Memory};
use std::alloc::Global;
use std::test::Fail;

/// What is done with an event.
#[derive(Clone, Copy)]
enum Act {
    Count,
    Discount,
    Remove,
}

/// Events of 2, 7 and 13 bytes.
fn made(alloc: Global) -> Result<Texts, Memory> {
    let mut texts = Texts::empty(alloc);
    texts.add(3, Bytes::from_slice(alloc, b"{}")?)?;
    texts.add(5, Bytes::from_slice(alloc, b"{\"a\":1}")?)?;
    texts.add(9, Bytes::from_slice(alloc, b"{\"b\":[2,3,4]}")?)?;
    Ok(texts)
}

/// The bytes that count, and how many events there are, after an act.
fn after(texts: &mut Texts, act: Act, number: u64) -> Result<(u64, usize), Memory> {
    match act {
        Act::Count => texts.count(number)?,
        Act::Discount => texts.discount(number),
        Act::Remove => {
            texts.discount(number);
            texts.remove(number);
        }
    }
    Ok((texts.bytes(), texts.entries().count()))
}

/// The length of an event's text, and 0 where it isn't there.
fn length_in<T: EventTexts>(texts: &T, number: u64) -> usize {
    match texts.text(number) {
        Some(text) => text.len(),
        None => 0,
    }
}

#[test]
fn bytes_count_once_each(rt: HostRuntime) -> Result<(), Fail> {
    let mut texts = made(rt.alloc())?;
    let acts = [
        (Act::Count, 5, (7, 3)),
        (Act::Count, 5, (7, 3)),
        (Act::Count, 9, (20, 3)),
        (Act::Count, 4, (20, 3)),
        (Act::Discount, 5, (13, 3)),
        (Act::Discount, 5, (13, 3)),
        (Act::Remove, 3, (13, 2)),
        (Act::Remove, 4, (13, 2)),
        (Act::Remove, 9, (0, 1)),
    ];
    for (act, number, expected) in acts {
        assert_eq!(rt; after(&mut texts, act, number)?, expected);
    }
    Ok(())
}

#[test]
fn texts_are_found_by_number(rt: HostRuntime) -> Result<(), Fail> {
    let texts = made(rt.alloc())?;
    for (number, length) in [(3, 2), (4, 0), (5, 7), (9, 13)] {
        assert_eq!(rt; length_in(&texts, number), length);
        assert_eq!(rt; texts.text_or_none(number).len(), length);
        assert_eq!(rt; texts.get(number).is_some(), length > 0);
    }
    Ok(())
}
