use intake::{IntakeFault, Seen, event_text, read_events};
use kinds::{EventIn, Out};
use lists::{Bytes, Memory};
use std::alloc::Global;
use std::process::Abort;
use std::test::Fail;

const DAY: u64 = 86_400_000;

#[test]
fn an_id_tells_for_a_day(rt: HostRuntime) -> Result<(), Fail> {
    let mut seen = Seen::empty(rt.alloc());
    seen.note(b"a", 1, 1000)?;
    assert_eq!(rt; seen.find(b"a", 0), Some(1));
    assert_eq!(rt; seen.find(b"a", 1000 + DAY - 1), Some(1));
    assert_eq!(rt; seen.find(b"a", 1000 + DAY), None);
    assert_eq!(rt; seen.find(b"", 1000), None);
    Ok(())
}

// One id is noted twice, a day apart, and another between.
fn noted(alloc: Global) -> Result<Seen, Memory> {
    let mut seen = Seen::empty(alloc);
    seen.note(b"a", 1, 0)?;
    seen.note(b"bc", 2, 5)?;
    seen.note(b"a", 3, DAY)?;
    Ok(seen)
}

fn numbers(alloc: Global, seen: &Seen) -> Result<Vec<u64>, Fail> {
    Ok(seen.entries().map(|e| e.number).collect::<Vec<u64>>(alloc)?)
}

#[test]
fn a_new_entry_takes_the_place_of_an_old_one(rt: HostRuntime) -> Result<(), Fail> {
    let seen = noted(rt.alloc())?;
    assert_eq!(rt; seen.weight(), 131);
    assert_eq!(rt; seen.find(b"a", DAY), Some(3));
    let numbers = numbers(rt.alloc(), &seen)?;
    assert_eq!(rt; numbers.as_slice(), [2u64, 3].as_slice());
    Ok(())
}

#[test]
fn an_entry_is_forgotten_after_a_day(rt: HostRuntime) -> Result<(), Fail> {
    let mut seen = noted(rt.alloc())?;
    seen.forget(DAY + 5);
    assert_eq!(rt; seen.weight(), 65);
    assert_eq!(rt; seen.find(b"bc", 5), None);
    assert_eq!(rt; seen.entries().count(), 1);
    Ok(())
}

const MOMENT: u64 = 1000;

/// What a body comes to: the texts of its events, numbered from 1, one behind the other, or the answer
/// that refuses it.
fn told(alloc: Global, body: &[u8]) -> Result<Bytes, Memory> {
    match read_events(alloc, body) {
        Ok(events) => texts(alloc, events.as_slice()),
        Err(fault) => {
            let Out::Answer { body, .. } = fault.answer(alloc)? else {
                return Ok(Bytes::new(alloc));
            };
            Ok(body)
        }
    }
}

fn texts(alloc: Global, events: &[EventIn]) -> Result<Bytes, Memory> {
    let mut all = Bytes::new(alloc);
    for (index, event) in events.iter().enumerate() {
        let text = event_text(alloc, event, index as u64 + 1, MOMENT)?;
        all.extend_from_slice(text.as_slice())?;
    }
    Ok(all)
}

/// A text so many times.
fn times(alloc: Global, text: &[u8], count: usize) -> Result<Bytes, Memory> {
    let mut all = Bytes::new(alloc);
    for _time in 0..count {
        all.extend_from_slice(text)?;
    }
    Ok(all)
}

fn around(alloc: Global, before: &[u8], inner: &[u8], after: &[u8]) -> Result<Bytes, Memory> {
    let mut all = Bytes::from_slice(alloc, before)?;
    all.extend_from_slice(inner)?;
    all.extend_from_slice(after)?;
    Ok(all)
}

/// Bodies, and what each comes to.
const BODIES: &str = r#"[] => 
 [ ]  => 
{"name":"x"} => {"name":"x","data":{},"id":"evt-1","ts":1000}
[{"name":"x","id":"i"},{"name":"x","id":"i"}] => {"name":"x","data":{},"id":"i","ts":1000}{"name":"x","data":{},"id":"i","ts":1000}
[{"name":"x"},{"data":{}}] => {"error":"no name","at":1,"status":400}
7 => {"error":"no name","at":0,"status":400}
null => {"error":"no name","at":0,"status":400}
"name" => {"error":"no name","at":0,"status":400}
{} => {"error":"no name","at":0,"status":400}
[{"name":"x"},[{"name":"x"}]] => {"error":"no name","at":1,"status":400}
{"name":""} => {"error":"no name","at":0,"status":400}
{"name":null} => {"error":"no name","at":0,"status":400}
{"name":["x"]} => {"error":"no name","at":0,"status":400}
{"name":"x","data":[]} => {"error":"data not object","at":0,"status":400}
[{"name":"x","data":{}},{"name":"x","data":"{}"}] => {"error":"data not object","at":1,"status":400}
{"name":"x","data":false} => {"error":"data not object","at":0,"status":400}
[{"name":"x","data":1},{}] => {"error":"data not object","at":0,"status":400}
[{"data":1},{"name":"x","data":1}] => {"error":"no name","at":0,"status":400}
 => {"error":"not json","at":0,"status":400}
{"name":"x" => {"error":"not json","at":11,"status":400}
[{},{},] => {"error":"not json","at":7,"status":400}
[{}] 1 => {"error":"not json","at":5,"status":400}
{"name":"\ud800"} => {"error":"not json","at":15,"status":400}
{"name":"a","name":"b"} => {"name":"b","data":{},"id":"evt-1","ts":1000}
{"name":"a","name":1} => {"error":"no name","at":0,"status":400}
{"\u006eame":"shop\/\"\u00e9"} => {"name":"shop/\"é","data":{},"id":"evt-1","ts":1000}
{"name":"\u0000"} => {"name":"\u0000","data":{},"id":"evt-1","ts":1000}
"#;

/// What stands behind the member `name`, and behind its text.
const MEMBERS: &str = r#","data":null => ,"data":{},"id":"evt-1","ts":1000}
 , "data" : { "p" : 1.50 , "q":[ 1e2 ] }  => ,"data":{ "p" : 1.50 , "q":[ 1e2 ] },"id":"evt-1","ts":1000}
,"data":{"p":1.50,"q":1e2} => ,"data":{"p":1.50,"q":1e2},"id":"evt-1","ts":1000}
,"id":"" => ,"data":{},"id":"evt-1","ts":1000}
,"id":7 => ,"data":{},"id":"evt-1","ts":1000}
,"id":null => ,"data":{},"id":"evt-1","ts":1000}
,"id":["i"] => ,"data":{},"id":"evt-1","ts":1000}
,"id":"\u0041\"\\\/\n\u001Fé" => ,"data":{},"id":"A\"\\/\u000a\u001fé","ts":1000}
,"id":"\u0000" => ,"data":{},"id":"\u0000","ts":1000}
,"ts":"1" => ,"data":{},"id":"evt-1","ts":1000}
,"ts":null => ,"data":{},"id":"evt-1","ts":1000}
,"ts":1e3 => ,"data":{},"id":"evt-1","ts":1e3}
,"ts":-0 => ,"data":{},"id":"evt-1","ts":-0}
,"user":null => ,"data":{},"id":"evt-1","ts":1000,"user":null}
,"v":"\u0041","user":{"id":7} => ,"data":{},"id":"evt-1","ts":1000,"user":{"id":7},"v":"\u0041"}
,"total":1,"event":{},"V":2 => ,"data":{},"id":"evt-1","ts":1000}
,"data":[],"data":{"k":2} => ,"data":{"k":2},"id":"evt-1","ts":1000}
,"data":{"k":1},"\u0064ata":null => ,"data":{},"id":"evt-1","ts":1000}
,"id":"i","id":"j" => ,"data":{},"id":"j","ts":1000}
,"id":"i","id":"" => ,"data":{},"id":"evt-1","ts":1000}
,"ts":1,"ts":2.0 => ,"data":{},"id":"evt-1","ts":2.0}
,"ts":1,"ts":"" => ,"data":{},"id":"evt-1","ts":1000}
,"user":1,"user":2 => ,"data":{},"id":"evt-1","ts":1000,"user":2}
,"v":"1","v":"2" => ,"data":{},"id":"evt-1","ts":1000,"v":"2"}
"#;

/// Reads the body of each row, between the two texts, and gives the number of the rows.
fn walk<R: Abort>(
    rt: &R,
    alloc: Global,
    rows: &str,
    before: &[u8],
    after: &[u8],
) -> Result<u32, Fail> {
    let mut count: u32 = 0;
    for row in rows.lines() {
        if let Some((source, expected)) = row.split_once(" => ") {
            let body = around(alloc, before, source.as_bytes(), after)?;
            let whole = around(alloc, before, expected.as_bytes(), b"")?;
            let text = told(alloc, body.as_slice())?;
            assert_eq!(rt; (source, text.as_slice()), (source, whole.as_slice()));
            count = count.wrapping_add(1);
        }
    }
    Ok(count)
}

#[test]
fn bodies(rt: HostRuntime) -> Result<(), Fail> {
    assert_eq!(rt; walk(&rt, rt.alloc(), BODIES, b"", b"")?, 27);
    let text = told(rt.alloc(), b"{\"name\":\"\x00\"}")?;
    assert_eq!(rt;
        text.as_slice(),
        b"{\"error\":\"not json\",\"at\":9,\"status\":400}".as_slice()
    );
    Ok(())
}

#[test]
fn members(rt: HostRuntime) -> Result<(), Fail> {
    assert_eq!(rt;
        walk(&rt, rt.alloc(), MEMBERS, b"{\"name\":\"x\"", b"}")?,
        24
    );
    Ok(())
}

#[test]
fn ids_are_equal_as_texts(rt: HostRuntime) -> Result<(), Fail> {
    let body = b"[{\"name\":\"x\",\"id\":\"\\u0061\"},{\"name\":\"x\",\"id\":\"a\"},\
        {\"name\":\"x\",\"id\":\"\"}]";
    let events = read_events(rt.alloc(), body)?;
    let [first, second, third] = events.as_slice() else {
        return Err(Fail::new("not three events"));
    };
    let (Some(first), Some(second)) = (&first.id, &second.id) else {
        return Err(Fail::new("no id"));
    };
    assert_eq!(&rt; first.as_slice(), b"a".as_slice());
    assert_eq!(&rt; second.as_slice(), b"a".as_slice());
    assert!(&rt; third.id.is_none());
    Ok(())
}

/// An event's text of so many bytes.
fn event_of_size(alloc: Global, size: usize) -> Result<Bytes, Memory> {
    let filler = times(alloc, b"a", size.saturating_sub(19))?;
    around(
        alloc,
        b"{\"name\":\"x\",\"v\":\"",
        filler.as_slice(),
        b"\"}",
    )
}

/// Brackets, so many opened and so many closed.
fn brackets(alloc: Global, opened: usize, closed: usize) -> Result<Bytes, Memory> {
    let opened = times(alloc, b"[", opened)?;
    let closed = times(alloc, b"]", closed)?;
    around(alloc, opened.as_slice(), closed.as_slice(), b"")
}

/// How many events a body has.
fn count(alloc: Global, body: &[u8]) -> Result<usize, IntakeFault> {
    Ok(read_events(alloc, body)?.len())
}

#[test]
fn sizes(rt: HostRuntime) -> Result<(), Fail> {
    // What stands before an event's text of so many bytes, and behind it.
    let rows: [(&str, usize, &str, Result<usize, IntakeFault>); 9] = [
        ("", 262_144, "", Ok(1)),
        (" ", 262_144, "  ", Ok(1)),
        ("", 262_145, "", Err(IntakeFault::TooLarge { index: 0 })),
        ("[{\"name\":\"x\"}, ", 262_144, " ]", Ok(2)),
        (
            "[{\"name\":\"x\"},",
            262_145,
            "]",
            Err(IntakeFault::TooLarge { index: 1 }),
        ),
        (
            "[",
            262_145,
            ",{}]",
            Err(IntakeFault::TooLarge { index: 0 }),
        ),
        ("[{},", 262_145, "]", Err(IntakeFault::NoName { index: 0 })),
        (
            "{\"name\":\"\",\"user\":",
            262_144,
            "}",
            Err(IntakeFault::NoName { index: 0 }),
        ),
        (
            "{\"name\":\"x\",\"user\":",
            262_144,
            ",\"data\":0}",
            Err(IntakeFault::DataNotObject { index: 0 }),
        ),
    ];
    for (before, size, after, expected) in rows {
        let event = event_of_size(rt.alloc(), size)?;
        let body = around(
            rt.alloc(),
            before.as_bytes(),
            event.as_slice(),
            after.as_bytes(),
        )?;
        assert_eq!(&rt; count(rt.alloc(), body.as_slice()), expected, "{before}");
    }
    Ok(())
}

#[test]
fn whole_bodies(rt: HostRuntime) -> Result<(), Fail> {
    let alloc = rt.alloc();
    let spaces = times(alloc, b" ", 4_194_302)?;
    let body = around(alloc, b"[", spaces.as_slice(), b"]")?;
    assert_eq!(&rt; count(alloc, body.as_slice()), Ok(0));
    let event = event_of_size(alloc, 262_143)?;
    let more = around(alloc, b"", event.as_slice(), b",")?;
    let more = times(alloc, more.as_slice(), 15)?;
    let last = event_of_size(alloc, 262_142)?;
    let events = around(alloc, more.as_slice(), last.as_slice(), b"")?;
    let body = around(alloc, b"[", events.as_slice(), b"]")?;
    assert_eq!(&rt; body.len(), 4_194_304);
    assert_eq!(&rt; count(alloc, body.as_slice()), Ok(16));
    Ok(())
}

#[test]
fn counts(rt: HostRuntime) -> Result<(), Fail> {
    // Items with a comma behind each, how many of them, and what stands behind them.
    let rows: [(&str, usize, &str, Result<usize, IntakeFault>); 4] = [
        ("{\"name\":\"x\"},", 999, "{\"name\":\"x\"}]", Ok(1000)),
        (
            "{\"name\":\"x\"},",
            999,
            "{}]",
            Err(IntakeFault::NoName { index: 999 }),
        ),
        ("1,", 1000, "1]", Err(IntakeFault::TooMany { count: 1001 })),
        ("1,", 1000, "1", Err(IntakeFault::NotJson { at: 2002 })),
    ];
    for (item, many, last, expected) in rows {
        let items = times(rt.alloc(), item.as_bytes(), many)?;
        let body = around(rt.alloc(), b"[", items.as_slice(), last.as_bytes())?;
        assert_eq!(&rt; count(rt.alloc(), body.as_slice()), expected, "{item}");
    }
    Ok(())
}

#[test]
fn depths(rt: HostRuntime) -> Result<(), Fail> {
    // What stands before so many open brackets, how many are closed, and what stands behind them.
    let rows: [(&str, usize, usize, &str, Result<usize, IntakeFault>); 5] = [
        ("", 64, 0, "", Err(IntakeFault::NotJson { at: 64 })),
        ("", 65, 0, "", Err(IntakeFault::NotJson { at: 64 })),
        ("", 64, 64, "", Err(IntakeFault::NoName { index: 0 })),
        ("{\"name\":\"x\",\"user\":", 63, 63, "}", Ok(1)),
        (
            "{\"name\":\"x\",\"user\":",
            64,
            64,
            "}",
            Err(IntakeFault::NotJson { at: 82 }),
        ),
    ];
    for (before, opened, closed, after, expected) in rows {
        let inner = brackets(rt.alloc(), opened, closed)?;
        let body = around(
            rt.alloc(),
            before.as_bytes(),
            inner.as_slice(),
            after.as_bytes(),
        )?;
        assert_eq!(&rt; count(rt.alloc(), body.as_slice()), expected, "{before}");
    }
    Ok(())
}

// An event that has a name and data alone.
fn bare(alloc: Global) -> Result<EventIn, Memory> {
    Ok(EventIn {
        name: Bytes::from_slice(alloc, b"shop/\x01")?,
        content: Bytes::from_slice(alloc, b"{\"p\":1.50,\"q\":1e2}")?,
        id: None,
        ts: None,
        user: None,
        v: None,
    })
}

// The event with each of the other members.
fn with_members(alloc: Global, event: EventIn) -> Result<EventIn, Memory> {
    let mut event = event;
    event.id = Some(Bytes::from_slice(alloc, b"\"\\\x1f")?);
    event.ts = Some(Bytes::from_slice(alloc, b"1e3")?);
    event.user = Some(Bytes::from_slice(alloc, b"{\"id\":7}")?);
    event.v = Some(Bytes::from_slice(alloc, b"\"2024-01-01\"")?);
    Ok(event)
}

// The event of the greatest number at 0 has this text.
fn has_text<R: Abort>(rt: &R, alloc: Global, event: &EventIn, wanted: &[u8]) -> Result<(), Fail> {
    let text = event_text(alloc, event, u64::MAX, 0)?;
    assert_eq!(rt; text.as_slice(), wanted);
    Ok(())
}

#[test]
fn event_texts(rt: HostRuntime) -> Result<(), Fail> {
    let event = bare(rt.alloc())?;
    has_text(
        &rt,
        rt.alloc(),
        &event,
        b"{\"name\":\"shop/\\u0001\",\"data\":{\"p\":1.50,\"q\":1e2},\
        \"id\":\"evt-18446744073709551615\",\"ts\":0}",
    )?;
    let event = with_members(rt.alloc(), event)?;
    has_text(
        &rt,
        rt.alloc(),
        &event,
        b"{\"name\":\"shop/\\u0001\",\"data\":{\"p\":1.50,\"q\":1e2},\"id\":\"\\\"\\\\\\u001f\",\
        \"ts\":1e3,\"user\":{\"id\":7},\"v\":\"2024-01-01\"}",
    )
}
