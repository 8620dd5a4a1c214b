use kinds::{Function, StepEntry, StepHash};
use lists::{Bytes, Items, Memory};
use sdk_call::{CallParts, CallText, call_text, head_text};
use std::alloc::Global;
use std::process::Abort;
use std::test::Fail;

/// The SHA-1 of `abc`, as the name of a step.
const NAME: &[u8; 40] = b"a9993e364706816aba3e25717850c26c9cd0d89d";

/// The id of run 1, made at 1000 ms.
const RUN: &[u8; 36] = b"00000000-03e8-7000-8000-000000000001";

/// A call's body before anything is recorded.
const BODY: &str =
    "{\"ctx\":{\"run_id\":\"00000000-03e8-7000-8000-000000000001\",\"attempt\":0,\"disable_immediate_execution\":false,\"use_api\":false},\"event\":{\"name\":\"x\",\"data\":{\"u\":1},\"id\":\"evt-1\",\"ts\":1000},\"events\":[{\"name\":\"x\",\"data\":{\"u\":1},\"id\":\"evt-1\",\"ts\":1000}],\"steps\":{},\"use_api\":false}";

fn function(alloc: Global, id: &[u8], path: &[u8], query: &[u8]) -> Result<Function, Memory> {
    Ok(Function {
        id: Bytes::from_slice(alloc, id)?,
        triggers: Items::new(alloc),
        host: Bytes::from_slice(alloc, b"127.0.0.1")?,
        port: 9,
        path: Bytes::from_slice(alloc, path)?,
        query: Bytes::from_slice(alloc, query)?,
        retries: 4,
        limits: Items::new(alloc),
        throttle: None,
        debounce: None,
        batch: None,
        priority: None,
        cancels: Items::new(alloc),
    })
}

/// The call of attempt 0 for one event, with the results of these steps.
fn first_call(alloc: Global, event: &[u8], steps: &[StepEntry]) -> Result<CallText, Memory> {
    let function = function(alloc, b"a-f", b"/api", b"fnId=a-f&stepId=step")?;
    let events = [event];
    call_text(
        alloc,
        &CallParts {
            function: &function,
            target: b"step",
            run_id: *RUN,
            attempt: 0,
            planned: false,
            events: events.as_slice(),
            steps,
        },
    )
}

/// The call of the last attempt for two events, of a run that planned a step, to a path with this query.
fn last_call(alloc: Global, query: &[u8]) -> Result<CallText, Memory> {
    let function = function(alloc, b"f", b"/p", query)?;
    let events: [&[u8]; 2] = [b"{}", b"[]"];
    call_text(
        alloc,
        &CallParts {
            function: &function,
            target: b"step",
            run_id: *RUN,
            attempt: 255,
            planned: true,
            events: events.as_slice(),
            steps: &[],
        },
    )
}

/// The first call for one event, with the results of these steps, comes to this body.
fn carries(
    rt: &impl Abort,
    alloc: Global,
    event: &[u8],
    steps: &[StepEntry],
    wanted: &[u8],
) -> Result<(), Fail> {
    let text = first_call(alloc, event, steps)?;
    assert_eq!(rt;
        text.path.as_slice(),
        b"/api?fnId=a-f&stepId=step".as_slice()
    );
    assert_eq!(rt; text.body.as_slice(), wanted);
    Ok(())
}

/// The first call for `EVENT`, with one step of this result, comes to this body.
fn carries_result(rt: &impl Abort, alloc: Global, value: &[u8], wanted: &[u8]) -> Result<(), Fail> {
    let steps = [step(alloc, value)?];
    carries(rt, alloc, EVENT, steps.as_slice(), wanted)
}

fn step(alloc: Global, value: &[u8]) -> Result<StepEntry, Memory> {
    Ok(StepEntry {
        hash: StepHash::new(*NAME),
        result: Bytes::from_slice(alloc, value)?,
    })
}

/// The event that most calls are for.
const EVENT: &[u8] = b"{\"name\":\"x\",\"data\":{\"u\":1},\"id\":\"evt-1\",\"ts\":1000}";

/// An event with a user and a version.
const PAID: &[u8] =
    b"{\"name\":\"shop/order.paid\",\"data\":{\"orderId\":\"o1\",\"accountId\":\"A\",\"total\":19.90},\"id\":\"evt-1\",\"ts\":1700000000000,\"user\":{\"id\":7},\"v\":\"2024-01-01\"}";

#[test]
fn bodies(rt: HostRuntime) -> Result<(), Fail> {
    carries(&rt, rt.alloc(), EVENT, &[], BODY.as_bytes())?;
    carries(
        &rt,
        rt.alloc(),
        PAID,
        &[],
        b"{\"ctx\":{\"run_id\":\"00000000-03e8-7000-8000-000000000001\",\"attempt\":0,\"disable_immediate_execution\":false,\"use_api\":false},\"event\":{\"name\":\"shop/order.paid\",\"data\":{\"orderId\":\"o1\",\"accountId\":\"A\",\"total\":19.90},\"id\":\"evt-1\",\"ts\":1700000000000,\"user\":{\"id\":7},\"v\":\"2024-01-01\"},\"events\":[{\"name\":\"shop/order.paid\",\"data\":{\"orderId\":\"o1\",\"accountId\":\"A\",\"total\":19.90},\"id\":\"evt-1\",\"ts\":1700000000000,\"user\":{\"id\":7},\"v\":\"2024-01-01\"}],\"steps\":{},\"use_api\":false}",
    )
}

#[test]
fn results(rt: HostRuntime) -> Result<(), Fail> {
    carries_result(
        &rt,
        rt.alloc(),
        b"{\"data\":\"ok\"}",
        b"{\"ctx\":{\"run_id\":\"00000000-03e8-7000-8000-000000000001\",\"attempt\":0,\"disable_immediate_execution\":false,\"use_api\":false},\"event\":{\"name\":\"x\",\"data\":{\"u\":1},\"id\":\"evt-1\",\"ts\":1000},\"events\":[{\"name\":\"x\",\"data\":{\"u\":1},\"id\":\"evt-1\",\"ts\":1000}],\"steps\":{\"a9993e364706816aba3e25717850c26c9cd0d89d\":{\"data\":\"ok\"}},\"use_api\":false}",
    )?;
    carries_result(
        &rt,
        rt.alloc(),
        b"{\"data\":{\"p\":1.50,\"q\":1e2}}",
        b"{\"ctx\":{\"run_id\":\"00000000-03e8-7000-8000-000000000001\",\"attempt\":0,\"disable_immediate_execution\":false,\"use_api\":false},\"event\":{\"name\":\"x\",\"data\":{\"u\":1},\"id\":\"evt-1\",\"ts\":1000},\"events\":[{\"name\":\"x\",\"data\":{\"u\":1},\"id\":\"evt-1\",\"ts\":1000}],\"steps\":{\"a9993e364706816aba3e25717850c26c9cd0d89d\":{\"data\":{\"p\":1.50,\"q\":1e2}}},\"use_api\":false}",
    )
}

/// Queries, and the path that the call goes to.
const PATHS: &str = r#" => /p?fnId=f&stepId=step
fnId=a&stepId=b => /p?fnId=f&stepId=step
fnId&stepId => /p?fnId=f&stepId=step
a=1&fnId=a&b=2 => /p?a=1&b=2&fnId=f&stepId=step
a=fnId&a=1&a => /p?a=fnId&a=1&a&fnId=f&stepId=step
&& => /p?&&&fnId=f&stepId=step
fnIdx=1&=fnId&FNID=2 => /p?fnIdx=1&=fnId&FNID=2&fnId=f&stepId=step
fnId=a=b&c==d => /p?c==d&fnId=f&stepId=step
"#;

/// The body of the last call.
const LAST: &[u8] =
    b"{\"ctx\":{\"run_id\":\"00000000-03e8-7000-8000-000000000001\",\"attempt\":255,\"disable_immediate_execution\":true,\"use_api\":false},\"event\":{},\"events\":[{},[]],\"steps\":{},\"use_api\":false}";

/// Makes the last call with the query of each row, and gives the number of the rows.
fn walk<R: Abort>(rt: &R, alloc: Global, rows: &str) -> Result<u32, Fail> {
    let mut count: u32 = 0;
    for row in rows.lines() {
        if let Some((query, wanted)) = row.split_once(" => ") {
            let text = last_call(alloc, query.as_bytes())?;
            assert_eq!(rt; (query, text.path.as_slice()), (query, wanted.as_bytes()));
            assert_eq!(rt; text.body.as_slice(), LAST);
            count = count.wrapping_add(1);
        }
    }
    Ok(count)
}

#[test]
fn paths(rt: HostRuntime) -> Result<(), Fail> {
    assert_eq!(rt; walk(&rt, rt.alloc(), PATHS)?, 8);
    Ok(())
}

#[test]
fn a_head(rt: HostRuntime) -> Result<(), Fail> {
    let path = b"/api?fnId=a-f&stepId=step";
    let head = head_text(rt.alloc(), b"127.0.0.1", 9, path, BODY.len(), None)?;
    assert_eq!(rt;
        head.as_slice(),
        b"POST /api?fnId=a-f&stepId=step HTTP/1.1\r\nHost: 127.0.0.1:9\r\nContent-Type: application/json\r\nContent-Length: 269\r\nConnection: close\r\n\r\n".as_slice()
    );
    Ok(())
}

#[test]
fn a_signed_head(rt: HostRuntime) -> Result<(), Fail> {
    let head = head_text(rt.alloc(), b"a.example", 80, b"/", 0, Some(b"t=1&s=2"))?;
    assert_eq!(rt;
        head.as_slice(),
        b"POST / HTTP/1.1\r\nHost: a.example\r\nContent-Type: application/json\r\nContent-Length: 0\r\nConnection: close\r\nX-Inngest-Signature: t=1&s=2\r\n\r\n".as_slice()
    );
    Ok(())
}
