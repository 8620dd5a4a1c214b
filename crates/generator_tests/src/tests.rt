use generator::registration;
use kinds::{App, Input};
use registry::read_app;
use replay_core::{Form, ReplayEnd, run_gen, run_script};
use rig::{FailedWrite, MemSink, MemSource};
use sha1::Sha1;
use std::alloc::Global;
use std::process::Abort;
use std::test::Fail;

/// The body of the first input's registration.
const REGISTRATION: &str =
    r#"{"appName":"a","url":"http://127.0.0.1:9/api","functions":[{"id":"a-f","name":"f","triggers":[{"event":"x"}],"steps":{"step":{"runtime":{"url":"http://127.0.0.1:9/api?fnId=a-f&stepId=step"}}},"concurrency":{"limit":2,"key":"event.data.u"}}]}"#;

/// The inputs behind it for one event, as lines of a script.
const ONE: &str = r#"10 EVENTS {"name":"x","data":{"u":4},"id":"g1"}
10 REPLY 1 206 [{"id":"a9993e364706816aba3e25717850c26c9cd0d89d","op":"StepRun","data":1}]
10 REPLY 2 200 null
"#;

/// And for two.
const TWO: &str = r#"10 EVENTS {"name":"x","data":{"u":2},"id":"g1"}
10 REPLY 1 206 [{"id":"a9993e364706816aba3e25717850c26c9cd0d89d","op":"StepRun","data":1}]
20 EVENTS {"name":"x","data":{"u":3},"id":"g2"}
20 REPLY 2 200 null
20 REPLY 3 206 [{"id":"a9993e364706816aba3e25717850c26c9cd0d89d","op":"StepRun","data":2}]
20 REPLY 4 200 null
"#;

// What the lines behind the registration print in full, with the end line.
fn printed(alloc: Global, lines: &str) -> Result<MemSink, Fail> {
    let script = format!(in alloc; "0 REGISTER {REGISTRATION}\n{lines}")?;
    let mut input = MemSource::from_slice(alloc, script.as_bytes())?;
    let mut out = MemSink::new(alloc);
    match run_script(alloc, Form::Full, &mut input, &mut out) {
        ReplayEnd::Done => Ok(out),
        _ => Err(Fail::new("not done")),
    }
}

// In lower case.
fn hex_of(alloc: Global, digest: &[u8; 20]) -> Result<String, Fail> {
    let mut text = String::new(alloc);
    for byte in digest {
        text.push_str(&format!(in alloc; "{byte:02x}")?)?;
    }
    Ok(text)
}

// The line of the generator for this many events.
fn generated(rt: &(impl Abort + AllocGlobal), n: u32) -> Result<String, Fail> {
    let mut out = MemSink::new(rt.alloc());
    assert_eq!(rt; run_gen(rt.alloc(), n, &mut out), ReplayEnd::Done);
    let Ok(text) = str::from_utf8(out.written()) else {
        return Err(Fail::new("no text"));
    };
    Ok(String::from_str(rt.alloc(), text)?)
}

// The line begins with these counts, and its digest is that of what a script with the same inputs prints.
fn is_of_script(
    rt: &(impl Abort + AllocGlobal),
    n: u32,
    counts: &str,
    lines: &str,
    end_line: &str,
) -> Result<(), Fail> {
    let out = printed(rt.alloc(), lines)?;
    let Some(text) = out.written().strip_suffix(end_line.as_bytes()) else {
        return Err(Fail::new("another end line"));
    };
    let digest = hex_of(rt.alloc(), &Sha1::digest(text))?;
    let wanted = format!(in rt.alloc(); "{counts} sha1={digest}\n")?;
    let line = generated(rt, n)?;
    assert_eq!(rt; line, wanted);
    Ok(())
}

#[test]
fn digests_of_scripts(rt: HostRuntime) -> Result<(), Fail> {
    is_of_script(
        &rt,
        0,
        "gen 0 inputs=1 calls=0 runs=0 live=0",
        "",
        "end inputs=1 live=0 moment=0\n",
    )?;
    is_of_script(
        &rt,
        1,
        "gen 1 inputs=4 calls=2 runs=1 live=0",
        ONE,
        "end inputs=4 live=0 moment=10\n",
    )?;
    is_of_script(
        &rt,
        2,
        "gen 2 inputs=7 calls=4 runs=2 live=0",
        TWO,
        "end inputs=7 live=0 moment=20\n",
    )
}

#[test]
fn one_line_twice(rt: HostRuntime) -> Result<(), Fail> {
    let line = generated(&rt, 2_000)?;
    assert!(rt; line.starts_with("gen 2000 inputs=6001 calls=4000 runs=2000 live=0 sha1="));
    let again = generated(&rt, 2_000)?;
    assert_eq!(rt; line, again);
    Ok(())
}

#[test]
fn a_failing_write(rt: HostRuntime) -> Result<(), Fail> {
    let mut out = MemSink::new(rt.alloc());
    out.fail_write(FailedWrite {
        number: 1,
        prefix: 4,
    })?;
    assert_eq!(rt; run_gen(rt.alloc(), 1, &mut out), ReplayEnd::WriteFault);
    assert_eq!(rt; out.written(), b"gen ".as_slice());
    Ok(())
}

// An application with one function is another's.
fn is_same(rt: &(impl Abort + AllocGlobal), app: &App, other: &App) {
    assert!(rt; app.name == other.name);
    assert_eq!(rt; app.functions.len(), 1);
    assert!(rt; app.functions.get(0) == other.functions.get(0));
}

#[test]
fn the_registration_as_it_is_read(rt: HostRuntime) -> Result<(), Fail> {
    let Ok(app) = read_app(rt.alloc(), REGISTRATION.as_bytes()) else {
        return Err(Fail::new("not read"));
    };
    match registration(rt.alloc())? {
        Input::Register { at, app: made } => {
            assert_eq!(rt; at, 0);
            is_same(&rt, &made, &app);
            Ok(())
        }
        _ => Err(Fail::new("no registration")),
    }
}
