use kinds::{After, Op, Outcome, ReplyIn, Time};
use lists::{Bytes, Memory};
use sdk_reply::{delay, read_reply};
use std::alloc::Global;
use std::process::Abort;
use std::test::Fail;

/// The SHA-1 of `abc`, as the name of a step.
const NAME: &str = "a9993e364706816aba3e25717850c26c9cd0d89d";

// ---- what a reply comes to, as a line

fn add_number(out: &mut Bytes, word: &[u8], number: u64) -> Result<(), Memory> {
    out.extend_from_slice(word)?;
    out.push_decimal(number)
}

fn add_time(out: &mut Bytes, time: Time) -> Result<(), Memory> {
    match time {
        Time::Span(millis) => add_number(out, b" in ", millis),
        Time::At(moment) => add_number(out, b" at ", moment),
    }
}

fn add_after(out: &mut Bytes, after: After) -> Result<(), Memory> {
    match after {
        After::None => Ok(()),
        After::Millis(millis) => add_number(out, b" after ", millis),
        After::At(moment) => add_number(out, b" at ", moment),
    }
}

fn add_text(out: &mut Bytes, word: &[u8], text: &[u8]) -> Result<(), Memory> {
    out.extend_from_slice(word)?;
    out.extend_from_slice(text)
}

fn add_op(out: &mut Bytes, op: &Op) -> Result<(), Memory> {
    match op {
        Op::StepRun { value, .. } => add_text(out, b" run ", value.as_slice()),
        Op::StepError { error, .. } => add_text(out, b" error ", error.as_slice()),
        Op::StepPlanned { .. } => add_text(out, b" planned", b""),
        Op::Sleep { time, .. } => {
            out.extend_from_slice(b" sleep")?;
            add_time(out, *time)
        }
        Op::WaitForEvent {
            event,
            timeout,
            cond,
            ..
        } => {
            add_text(out, b" wait ", event.as_slice())?;
            if let Some(cond) = cond {
                add_text(out, b" if ", cond.text())?;
            }
            add_time(out, *timeout)
        }
        Op::InvokeFunction {
            function,
            payload,
            timeout,
            ..
        } => {
            add_text(out, b" invoke ", function.as_slice())?;
            if let Some(payload) = payload {
                add_text(out, b" with ", payload.as_slice())?;
            }
            match timeout {
                Some(time) => add_time(out, *time),
                None => Ok(()),
            }
        }
    }
}

fn add_outcome(out: &mut Bytes, outcome: &Outcome) -> Result<(), Memory> {
    match outcome {
        Outcome::Ended { output } => add_text(out, b"ended ", output.as_slice()),
        Outcome::Ops {
            ops,
            no_retry,
            after,
        } => {
            out.extend_from_slice(if *no_retry { b"last ops" } else { b"ops" })?;
            for op in ops.as_slice() {
                add_op(out, op)?;
            }
            add_after(out, *after)
        }
        Outcome::Retry { after, error } => {
            add_text(out, b"again", b"")?;
            add_after(out, *after)?;
            add_text(out, b" ", error.as_slice())
        }
        Outcome::NoRetry { error } => add_text(out, b"failed ", error.as_slice()),
        Outcome::Unreadable { at } => add_number(out, b"unreadable ", *at),
    }
}

/// A reply, with `NAME` in its body's place of each `#`.
fn reply_of(
    alloc: Global,
    status: u16,
    fields: (&str, &str),
    body: &str,
) -> Result<ReplyIn, Memory> {
    let mut full = Bytes::new(alloc);
    for byte in body.as_bytes() {
        if *byte == b'#' {
            full.extend_from_slice(NAME.as_bytes())?;
        } else {
            full.push(*byte)?;
        }
    }
    let retry = match fields.1 {
        "-" => None,
        text => Some(Bytes::from_slice(alloc, text.as_bytes())?),
    };
    Ok(ReplyIn {
        status,
        no_retry: match fields.0 {
            "true" => Some(true),
            "false" => Some(false),
            _ => None,
        },
        retry,
        body: full,
    })
}

fn told(alloc: Global, reply: &ReplyIn) -> Result<Bytes, Memory> {
    let mut line = Bytes::new(alloc);
    add_outcome(&mut line, &read_reply(alloc, reply)?)?;
    Ok(line)
}

/// One operation with `NAME` as its `id` and these other members, after a space: `ops` and what it is,
/// or `unreadable` from its brace on.
fn walk_parts(rt: &impl Abort, alloc: Global, rows: &[(&str, &str)]) -> Result<(), Fail> {
    for (parts, wanted) in rows {
        let mut body = String::new(alloc);
        body.push_str("[ {\"id\":\"#\"")?;
        body.push_str(parts)?;
        body.push_str("}]")?;
        let reply = reply_of(alloc, 206, ("-", "-"), body.as_str())?;
        let line = told(alloc, &reply)?;
        assert_eq!(rt; line.as_slice(), wanted.as_bytes(), "at {parts}");
    }
    Ok(())
}

const NOT_VALID: &str = "unreadable 2";

// ---- operations

#[test]
fn steps(rt: HostRuntime) -> Result<(), Fail> {
    walk_parts(
        &rt,
        rt.alloc(),
        &[
            (",\"op\":\"StepRun\"", "ops run null"),
            (",\"op\":\"StepRun\",\"data\":null", "ops run null"),
            (",\"op\":\"StepRun\",\"data\":\"ok\"", "ops run \"ok\""),
            (",\"op\":\"StepRun\",\"data\":\"\"", "ops run \"\""),
            (
                ",\"op\":\"StepRun\",\"data\": {\"p\":1.50,\"q\":1e2} ",
                "ops run {\"p\":1.50,\"q\":1e2}",
            ),
            (",\"data\":1,\"op\":\"StepRun\",\"data\":2", "ops run 2"),
            (
                ",\"op\":\"Step\\u0052un\",\"error\":1,\"opts\":7,\"name\":8",
                "ops run null",
            ),
            (",\"op\":\"StepError\"", "ops error null"),
            (",\"op\":\"StepError\",\"error\":null", "ops error null"),
            (
                ",\"op\":\"StepError\",\"error\":{\"name\":\"E\"},\"data\":1",
                "ops error {\"name\":\"E\"}",
            ),
            (",\"op\":\"StepError\",\"error\":[1 ]", "ops error [1 ]"),
            (",\"op\":\"StepPlanned\"", "ops planned"),
            (
                ",\"op\":\"StepPlanned\",\"data\":1,\"opts\":null",
                "ops planned",
            ),
            ("", NOT_VALID),
            (",\"op\":null", NOT_VALID),
            (",\"op\":\"\"", NOT_VALID),
            (",\"op\":1", NOT_VALID),
            (",\"op\":[\"StepRun\"]", NOT_VALID),
            (",\"op\":\"Gateway\"", NOT_VALID),
            (",\"op\":\"steprun\"", NOT_VALID),
            (",\"op\":\"StepRun \"", NOT_VALID),
            (",\"Op\":\"StepRun\"", NOT_VALID),
            (",\"op\":\"StepRun\",\"id\":null", NOT_VALID),
            (",\"op\":\"StepRun\",\"id\":7", NOT_VALID),
            (",\"op\":\"StepRun\",\"id\":\"\"", NOT_VALID),
            (",\"op\":\"StepRun\",\"id\":\"#0\"", NOT_VALID),
            (
                ",\"op\":\"StepRun\",\"id\":\"A9993E364706816ABA3E25717850C26C9CD0D89D\"",
                NOT_VALID,
            ),
            (
                ",\"op\":\"StepRun\",\"id\":\"a9993e364706816aba3e25717850c26c9cd0d89\"",
                NOT_VALID,
            ),
            (
                ",\"op\":\"StepRun\",\"id\":\"\\u00619993e364706816aba3e25717850c26c9cd0d89d\"",
                "ops run null",
            ),
            (
                ",\"data\":1,\"\\u006fp\":\"StepRun\",\"d\\u0061ta\":2",
                "ops run 2",
            ),
            (
                ",\"\\u006f\":1,\"op\":\"Sleep\",\"opt\\u0073\":{\"dur\\u0061tion\":\"1s\"}",
                "ops sleep in 1000",
            ),
        ],
    )
}

#[test]
fn sleeps(rt: HostRuntime) -> Result<(), Fail> {
    walk_parts(
        &rt,
        rt.alloc(),
        &[
            (
                ",\"op\":\"Sleep\",\"opts\":{\"duration\":\"10s\"}",
                "ops sleep in 10000",
            ),
            (
                ",\"op\":\"Sleep\",\"opts\":{\"duration\":\"1h30m\"},\"name\":\"1s\"",
                "ops sleep in 5400000",
            ),
            (
                ",\"op\":\"Sleep\",\"opts\":{\"duration\":\"1.5s\"}",
                "ops sleep in 1500",
            ),
            (
                ",\"op\":\"Sleep\",\"opts\":{\"duration\":\"0ms\"}",
                "ops sleep in 0",
            ),
            (
                ",\"op\":\"Sleep\",\"opts\":{\"duration\":\"366d\"}",
                "ops sleep in 31622400000",
            ),
            (
                ",\"op\":\"Sleep\",\"opts\":{\"duration\":\"1\\u0030s\"}",
                "ops sleep in 10000",
            ),
            (",\"op\":\"Sleep\",\"name\":\"10s\"", "ops sleep in 10000"),
            (
                ",\"op\":\"Sleep\",\"opts\":{},\"name\":\"10s\"",
                "ops sleep in 10000",
            ),
            (
                ",\"op\":\"Sleep\",\"opts\":7,\"name\":\"10s\"",
                "ops sleep in 10000",
            ),
            (
                ",\"op\":\"Sleep\",\"name\":\"2001-09-09T01:46:40Z\"",
                "ops sleep at 1000000000000",
            ),
            (
                ",\"op\":\"Sleep\",\"opts\":{\"duration\":\"2001-09-09T03:46:40.123+02:00\"}",
                "ops sleep at 1000000000123",
            ),
            (
                ",\"op\":\"Sleep\",\"name\":\"1970-01-01T00:00:01.9999Z\"",
                "ops sleep at 1999",
            ),
            (
                ",\"op\":\"Sleep\",\"name\":\"1969-12-31T23:59:59.999Z\"",
                "ops sleep at 0",
            ),
            (
                ",\"op\":\"Sleep\",\"name\":\"0001-01-01T00:00:00Z\"",
                "ops sleep at 0",
            ),
            (
                ",\"op\":\"Sleep\",\"name\":\"9999-12-30T00:00:00Z\"",
                "ops sleep at 253402128000000",
            ),
            (
                ",\"op\":\"Sleep\",\"name\":\"10000-01-01T00:00:00Z\"",
                NOT_VALID,
            ),
            (
                ",\"op\":\"Sleep\",\"name\":\"2001-02-30T00:00:00Z\"",
                NOT_VALID,
            ),
            (
                ",\"op\":\"Sleep\",\"name\":\"2001-09-09T01:46:40\"",
                NOT_VALID,
            ),
            (",\"op\":\"Sleep\",\"name\":\"2001-09-09\"", NOT_VALID),
            (
                ",\"op\":\"Sleep\",\"name\":\"Sun, 06 Nov 1994 08:49:37 GMT\"",
                NOT_VALID,
            ),
            (",\"op\":\"Sleep\"", NOT_VALID),
            (",\"op\":\"Sleep\",\"name\":\"\"", NOT_VALID),
            (",\"op\":\"Sleep\",\"name\":\"10\"", NOT_VALID),
            (",\"op\":\"Sleep\",\"name\":10", NOT_VALID),
            (",\"op\":\"Sleep\",\"name\":null", NOT_VALID),
            (
                ",\"op\":\"Sleep\",\"opts\":{\"duration\":\"366d1ms\"}",
                NOT_VALID,
            ),
            (
                ",\"op\":\"Sleep\",\"opts\":{\"duration\":null},\"name\":\"10s\"",
                NOT_VALID,
            ),
            (
                ",\"op\":\"Sleep\",\"opts\":{\"duration\":\"\"},\"name\":\"10s\"",
                NOT_VALID,
            ),
            (",\"op\":\"Sleep\",\"opts\":{\"duration\":1000}", NOT_VALID),
        ],
    )
}

#[test]
fn waits(rt: HostRuntime) -> Result<(), Fail> {
    walk_parts(
        &rt,
        rt.alloc(),
        &[
            (
                ",\"op\":\"WaitForEvent\",\"opts\":{\"event\":\"y\",\"timeout\":\"1h\"}",
                "ops wait y in 3600000",
            ),
            (
                ",\"op\":\"WaitForEvent\",\"opts\":{\"event\":\"y\",\"timeout\":\"1h\"},\"name\":\"z\"",
                "ops wait y in 3600000",
            ),
            (
                ",\"op\":\"WaitForEvent\",\"opts\":{\"timeout\":\"1h\"},\"name\":\"z\"",
                "ops wait z in 3600000",
            ),
            (
                ",\"op\":\"WaitForEvent\",\"opts\":{\"event\":\"y\",\"timeout\":\"2001-09-09T01:46:40Z\"}",
                "ops wait y at 1000000000000",
            ),
            (
                ",\"op\":\"WaitForEvent\",\"opts\":{\"event\":\"y\",\"timeout\":\"1h\",\"if\":\"async.data.k == event.data.k\"}",
                "ops wait y if async.data.k == event.data.k in 3600000",
            ),
            (
                ",\"op\":\"WaitForEvent\",\"opts\":{\"event\":\"y\",\"timeout\":\"1h\",\"if\":\"event.data.k == \\\"a\\\"\"}",
                "ops wait y if event.data.k == \"a\" in 3600000",
            ),
            (
                ",\"op\":\"WaitForEvent\",\"opts\":{\"event\":\"y\",\"timeout\":\"1h\",\"if\":\"event.data.u ==\"}",
                NOT_VALID,
            ),
            (
                ",\"op\":\"WaitForEvent\",\"opts\":{\"event\":\"y\",\"timeout\":\"1h\",\"if\":\"((((((((((((((((((((((((((((((((( \"}",
                NOT_VALID,
            ),
            (
                ",\"op\":\"WaitForEvent\",\"opts\":{\"event\":\"y\",\"timeout\":\"1h\",\"if\":\"\"}",
                NOT_VALID,
            ),
            (
                ",\"op\":\"WaitForEvent\",\"opts\":{\"event\":\"y\",\"timeout\":\"1h\",\"if\":null}",
                NOT_VALID,
            ),
            (
                ",\"op\":\"WaitForEvent\",\"opts\":{\"event\":\"y\",\"timeout\":\"1h\",\"if\":true}",
                NOT_VALID,
            ),
            (
                ",\"op\":\"WaitForEvent\",\"opts\":{\"event\":\"\",\"timeout\":\"1h\"},\"name\":\"z\"",
                NOT_VALID,
            ),
            (
                ",\"op\":\"WaitForEvent\",\"opts\":{\"event\":null,\"timeout\":\"1h\"},\"name\":\"z\"",
                NOT_VALID,
            ),
            (
                ",\"op\":\"WaitForEvent\",\"opts\":{\"event\":[\"y\"],\"timeout\":\"1h\"}",
                NOT_VALID,
            ),
            (
                ",\"op\":\"WaitForEvent\",\"opts\":{\"timeout\":\"1h\"}",
                NOT_VALID,
            ),
            (
                ",\"op\":\"WaitForEvent\",\"opts\":{\"timeout\":\"1h\"},\"name\":\"\"",
                NOT_VALID,
            ),
            (
                ",\"op\":\"WaitForEvent\",\"opts\":{\"event\":\"y\"}",
                NOT_VALID,
            ),
            (
                ",\"op\":\"WaitForEvent\",\"opts\":{\"event\":\"y\",\"timeout\":null}",
                NOT_VALID,
            ),
            (
                ",\"op\":\"WaitForEvent\",\"opts\":{\"event\":\"y\",\"timeout\":\"\"}",
                NOT_VALID,
            ),
            (
                ",\"op\":\"WaitForEvent\",\"opts\":{\"event\":\"y\",\"timeout\":3600000}",
                NOT_VALID,
            ),
            (
                ",\"op\":\"WaitForEvent\",\"opts\":null,\"name\":\"z\"",
                NOT_VALID,
            ),
        ],
    )
}

#[test]
fn invocations(rt: HostRuntime) -> Result<(), Fail> {
    walk_parts(
        &rt,
        rt.alloc(),
        &[
            (
                ",\"op\":\"InvokeFunction\",\"opts\":{\"function_id\":\"a-f\"}",
                "ops invoke a-f",
            ),
            (
                ",\"op\":\"InvokeFunction\",\"opts\":{\"function_id\":\"a-f\",\"payload\":{\"data\":{\"u\":9 }}}",
                "ops invoke a-f with {\"data\":{\"u\":9 }}",
            ),
            (
                ",\"op\":\"InvokeFunction\",\"opts\":{\"function_id\":\"a-f\",\"payload\":null}",
                "ops invoke a-f with null",
            ),
            (
                ",\"op\":\"InvokeFunction\",\"opts\":{\"function_id\":\"a-f\",\"payload\":\"\"}",
                "ops invoke a-f with \"\"",
            ),
            (
                ",\"op\":\"InvokeFunction\",\"opts\":{\"function_id\":\"a-f\",\"timeout\":\"1d\"}",
                "ops invoke a-f in 86400000",
            ),
            (
                ",\"op\":\"InvokeFunction\",\"opts\":{\"function_id\":\"a-f\",\"timeout\":\"1970-01-02T00:00:00+01:00\"}",
                "ops invoke a-f at 82800000",
            ),
            (
                ",\"op\":\"InvokeFunction\",\"opts\":{\"function_id\":\"\"}",
                "ops invoke ",
            ),
            (
                ",\"op\":\"InvokeFunction\",\"opts\":{\"function_id\":null}",
                NOT_VALID,
            ),
            (
                ",\"op\":\"InvokeFunction\",\"opts\":{\"function_id\":7}",
                NOT_VALID,
            ),
            (
                ",\"op\":\"InvokeFunction\",\"opts\":{\"payload\":1},\"name\":\"a-f\"",
                NOT_VALID,
            ),
            (",\"op\":\"InvokeFunction\",\"opts\":[\"a-f\"]", NOT_VALID),
            (",\"op\":\"InvokeFunction\"", NOT_VALID),
            (
                ",\"op\":\"InvokeFunction\",\"opts\":{\"function_id\":\"a-f\",\"timeout\":null}",
                NOT_VALID,
            ),
            (
                ",\"op\":\"InvokeFunction\",\"opts\":{\"function_id\":\"a-f\",\"timeout\":\"\"}",
                NOT_VALID,
            ),
            (
                ",\"op\":\"InvokeFunction\",\"opts\":{\"function_id\":\"a-f\",\"timeout\":\"soon\"}",
                NOT_VALID,
            ),
            (
                ",\"op\":\"InvokeFunction\",\"opts\":{\"function_id\":\"a-f\",\"timeout\":5}",
                NOT_VALID,
            ),
        ],
    )
}

// ---- statuses and fields

const UNREADABLE: &str = "failed {\"name\":\"Error\",\"message\":\"unreadable reply\"}";

const OF_500: &str = "again {\"name\":\"Error\",\"message\":\"status 500\"}";

/// Status, `X-Inngest-No-Retry` and `Retry-After` (`-` where they are absent), body, and what it comes
/// to.
type Row = (
    u16,
    (&'static str, &'static str),
    &'static str,
    &'static str,
);

fn walk_replies(rt: &impl Abort, alloc: Global, rows: &[Row]) -> Result<(), Fail> {
    for (status, fields, body, wanted) in rows {
        let reply = reply_of(alloc, *status, *fields, body)?;
        let line = told(alloc, &reply)?;
        assert_eq!(rt; line.as_slice(), wanted.as_bytes(), "at {status} {body}");
    }
    Ok(())
}

#[test]
fn ends(rt: HostRuntime) -> Result<(), Fail> {
    walk_replies(
        &rt,
        rt.alloc(),
        &[
            (200, ("-", "-"), "", "ended null"),
            (200, ("-", "-"), "\"done\"", "ended \"done\""),
            (200, ("-", "-"), " 1.50 ", "ended 1.50"),
            (200, ("true", "3"), "{\"r\":1.0}", "ended {\"r\":1.0}"),
            (200, ("true", "-"), "", "ended null"),
            (200, ("-", "-"), "{", "unreadable 1"),
            (200, ("false", "3"), "{", "unreadable 1"),
            (200, ("true", "-"), "{", UNREADABLE),
            (200, ("-", "-"), " ", "unreadable 1"),
            (200, ("-", "-"), "nul", "unreadable 3"),
            (200, ("-", "-"), "[1,]", "unreadable 3"),
            (200, ("-", "-"), "1 2", "unreadable 2"),
            (
                200,
                ("-", "-"),
                "[[[[[[[[[[[[[[[[[[[[[[[[[[[[[[[[[[[[[[[[[[[[[[[[[[[[[[[[[[[[[[[[[",
                "unreadable 64",
            ),
        ],
    )
}

#[test]
fn lists_of_operations(rt: HostRuntime) -> Result<(), Fail> {
    walk_replies(
        &rt,
        rt.alloc(),
        &[
            (206, ("-", "-"), "[]", "ops"),
            (206, ("true", "3"), " [ ] ", "last ops after 3000"),
            (206, ("false", "soon"), "[]", "ops"),
            (
                206,
                ("-", "-"),
                "[{\"id\":\"#\",\"op\":\"StepRun\",\"data\":1},{\"id\":\"#\",\"op\":\"StepPlanned\"},{\"id\":\"#\",\"op\":\"Sleep\",\"name\":\"1s\"}]",
                "ops run 1 planned sleep in 1000",
            ),
            (
                206,
                ("-", "-"),
                "[{\"id\":\"#\",\"op\":\"StepRun\"},{\"id\":\"x\",\"op\":\"Sleep\"}]",
                "unreadable 66",
            ),
            (
                206,
                ("true", "-"),
                "[{\"id\":\"#\",\"op\":\"StepRun\"},{\"id\":\"x\",\"op\":\"Sleep\"}]",
                UNREADABLE,
            ),
            (
                206,
                ("-", "-"),
                "[{\"id\":\"#\",\"op\":\"StepRun\",\"data\":[[1],{\"a\":2}]} , null,7]",
                "unreadable 89",
            ),
            (206, ("-", "-"), "[1]", "unreadable 1"),
            (206, ("-", "-"), " [\"StepRun\"]", "unreadable 2"),
            (206, ("-", "-"), "[[]]", "unreadable 1"),
            (
                206,
                ("-", "-"),
                " {\"id\":\"#\",\"op\":\"StepRun\"}",
                "unreadable 0",
            ),
            (206, ("-", "-"), "null", "unreadable 0"),
            (206, ("true", "-"), "null", UNREADABLE),
            (206, ("-", "-"), "", "unreadable 0"),
            (206, ("-", "-"), "[", "unreadable 1"),
            (206, ("true", "-"), "[", UNREADABLE),
        ],
    )
}

#[test]
fn failures(rt: HostRuntime) -> Result<(), Fail> {
    walk_replies(
        &rt,
        rt.alloc(),
        &[
            (500, ("-", "-"), "", OF_500),
            (500, ("-", "-"), "{", OF_500),
            (500, ("-", "-"), "[1]", OF_500),
            (500, ("-", "-"), "\"m\"", OF_500),
            (
                500,
                ("-", "3"),
                "{\"name\":\"E\",\"message\":\"m\"}",
                "again after 3000 {\"name\":\"E\",\"message\":\"m\"}",
            ),
            (500, ("-", "-"), " {\"a\" : 1.50} ", "again {\"a\" : 1.50}"),
            (500, ("false", "-"), "{}", "again {}"),
            (500, ("true", "3"), "{}", "failed {}"),
            (400, ("-", "3"), "{}", "failed {}"),
            (400, ("true", "-"), "{}", "failed {}"),
            (400, ("false", "3"), "{}", "again after 3000 {}"),
            (
                404,
                ("-", "-"),
                "x",
                "again {\"name\":\"Error\",\"message\":\"status 404\"}",
            ),
            (
                201,
                ("-", "-"),
                "[]",
                "again {\"name\":\"Error\",\"message\":\"status 201\"}",
            ),
            (
                0,
                ("true", "-"),
                "",
                "failed {\"name\":\"Error\",\"message\":\"status 0\"}",
            ),
        ],
    )
}

#[test]
fn retry_after(rt: HostRuntime) -> Result<(), Fail> {
    walk_replies(
        &rt,
        rt.alloc(),
        &[
            (500, ("-", "0"), "{}", "again after 0 {}"),
            (500, ("-", "00003"), "{}", "again after 3000 {}"),
            (500, ("-", "604800"), "{}", "again after 604800000 {}"),
            (500, ("-", "604801"), "{}", "again after 604800000 {}"),
            (
                500,
                ("-", "18446744073709551615"),
                "{}",
                "again after 604800000 {}",
            ),
            (500, ("-", "18446744073709551616"), "{}", "again {}"),
            (500, ("-", ""), "{}", "again {}"),
            (500, ("-", "-1"), "{}", "again {}"),
            (500, ("-", "1.5"), "{}", "again {}"),
            (500, ("-", "3s"), "{}", "again {}"),
            (500, ("-", "soon"), "{}", "again {}"),
            (
                500,
                ("-", "Sun, 06 Nov 1994 08:49:37 GMT"),
                "{}",
                "again at 784111777000 {}",
            ),
            (
                500,
                ("-", "Sunday, 06-Nov-94 08:49:37 GMT"),
                "{}",
                "again at 784111777000 {}",
            ),
            (
                500,
                ("-", "Sun Nov  6 08:49:37 1994"),
                "{}",
                "again at 784111777000 {}",
            ),
            (
                500,
                ("-", "1994-11-06T08:49:37Z"),
                "{}",
                "again at 784111777000 {}",
            ),
            (
                500,
                ("-", "1994-11-06T10:49:37.0019+02:00"),
                "{}",
                "again at 784111777001 {}",
            ),
            (500, ("-", "1960-01-01T00:00:00Z"), "{}", "again at 0 {}"),
            (500, ("-", "10000-01-01T00:00:00Z"), "{}", "again {}"),
        ],
    )
}

/// An object of so many bytes, eight or more.
fn large_error(alloc: Global, length: usize) -> Result<Bytes, Memory> {
    let mut body = Bytes::from_slice(alloc, b"{\"a\":\"")?;
    for _byte in 8..length {
        body.push(b'x')?;
    }
    body.extend_from_slice(b"\"}")?;
    Ok(body)
}

#[test]
fn long_errors(rt: HostRuntime) -> Result<(), Fail> {
    let alloc = rt.alloc();
    for (length, kept) in [(16_384, true), (16_385, false)] {
        let reply = ReplyIn {
            status: 500,
            no_retry: Some(true),
            retry: None,
            body: large_error(alloc, length)?,
        };
        let wanted = if kept {
            let mut line = Bytes::from_slice(alloc, b"failed ")?;
            line.extend_from_slice(reply.body.as_slice())?;
            line
        } else {
            Bytes::from_slice(
                alloc,
                b"failed {\"name\":\"Error\",\"message\":\"error too large\"}",
            )?
        };
        assert_eq!(rt; reply.body.len(), length);
        assert!(rt; told(alloc, &reply)? == wanted, "at {length}");
    }
    Ok(())
}

// ---- delays

#[test]
fn delays(rt: HostRuntime) -> Result<(), Fail> {
    for (attempt, after, moment, millis) in [
        (0, After::None, 7, 10_000),
        (1, After::None, 7, 30_000),
        (2, After::None, 7, 60_000),
        (3, After::None, 7, 120_000),
        (4, After::None, 7, 300_000),
        (5, After::None, 7, 600_000),
        (6, After::None, 7, 1_200_000),
        (255, After::None, 7, 1_200_000),
        (0, After::Millis(3_000), 7, 3_000),
        (5, After::Millis(0), 7, 0),
        (0, After::Millis(604_800_001), 7, 604_800_000),
        (0, After::At(1_000), 400, 600),
        (0, After::At(400), 1_000, 0),
        (0, After::At(784_111_777_000), 0, 604_800_000),
    ] {
        assert_eq!(rt; delay(attempt, &after, moment), millis);
    }
    Ok(())
}
