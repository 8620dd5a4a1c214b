use crate::{Requested, read_events_request};
use kinds::{EventIn, Input, Out};
use lists::{Bytes, Items};
use std::process::Abort;
use std::test::Fail;

/// The moment and the events of an input.
fn events_of(requested: Requested) -> Option<(u64, Items<EventIn>)> {
    match requested {
        Requested::Input(Input::Events { at, events }) => Some((at, events)),
        _ => None,
    }
}

/// The status and the body of an answer.
fn answer_of(requested: Requested) -> Option<(u16, Bytes)> {
    match requested {
        Requested::Answered(Out::Answer { status, body }) => Some((status, body)),
        _ => None,
    }
}

fn are_two(rt: &impl Abort, events: &[EventIn]) -> Result<(), Fail> {
    let [x, y] = events else {
        return Err(Fail::new("not two events"));
    };
    assert_eq!(rt; x.name.as_slice(), b"x".as_slice());
    assert_eq!(rt; x.content.as_slice(), b"{}".as_slice());
    assert_eq!(rt; y.name.as_slice(), b"y".as_slice());
    assert_eq!(rt; y.content.as_slice(), b"{\"k\":1.50}".as_slice());
    Ok(())
}

#[test]
fn events_are_an_input(rt: HostRuntime) -> Result<(), Fail> {
    let body = b"[{\"name\":\"x\"},{\"name\":\"y\",\"data\":{\"k\":1.50}}]";
    let Some((at, events)) = events_of(read_events_request(rt.alloc(), 7, body)?) else {
        return Err(Fail::new("no input"));
    };
    assert_eq!(rt; at, 7);
    are_two(&rt, events.as_slice())
}

fn is_answered(
    rt: &(impl Abort + AllocGlobal),
    body: &[u8],
    status: u16,
    text: &[u8],
) -> Result<(), Fail> {
    let Some((told_status, told)) = answer_of(read_events_request(rt.alloc(), 7, body)?) else {
        return Err(Fail::new("no answer"));
    };
    assert_eq!(rt; told_status, status);
    assert_eq!(rt; told.as_slice(), text);
    Ok(())
}

#[test]
fn others_are_answered_at_once(rt: HostRuntime) -> Result<(), Fail> {
    is_answered(
        &rt,
        b"[{\"name\":\"x\"},{\"data\":{}}]",
        400,
        b"{\"error\":\"no name\",\"at\":1,\"status\":400}",
    )?;
    is_answered(&rt, b"[]", 200, b"{\"ids\":[],\"status\":200}")
}
