use kinds::{Pending, RunStatus, StepHash};
use lists::Bytes;
use run_state::{Active, Fresh, Noted};
use std::alloc::Global;
use std::test::Fail;

#[derive(Clone, Copy)]
enum Act {
    Keep,
    Plan,
    Pend,
    Wake,
}

#[derive(Clone, Copy, Debug, PartialEq, Eq)]
enum Answer {
    New,
    Known,
    Full,
    Memory,
    Unasked,
}

/// The name that ends in this number, of at most 9,999.
fn name(number: u16) -> StepHash {
    let mut digits = [b'0'; 40];
    digits[36] = b'0' + (number / 1000 % 10) as u8;
    digits[37] = b'0' + (number / 100 % 10) as u8;
    digits[38] = b'0' + (number / 10 % 10) as u8;
    digits[39] = b'0' + (number % 10) as u8;
    StepHash::new(digits)
}

fn told(noted: Noted) -> (Answer, Active) {
    match noted {
        Noted::New(run) => (Answer::New, run),
        Noted::Known(run) => (Answer::Known, run),
        Noted::Full(run) => (Answer::Full, run),
        Noted::Memory(run) => (Answer::Memory, run),
    }
}

/// Does one act on a name; a result is the act's own number in decimal.
fn apply(
    alloc: Global,
    run: Active,
    what: Act,
    number: u16,
) -> Result<(Answer, Active), lists::Memory> {
    let hash = name(number);
    match what {
        Act::Keep => Ok(told(run.keep(&hash, text(alloc, number)?))),
        Act::Plan => Ok(told(run.plan(&hash))),
        Act::Pend => Ok(told(run.pend(&hash, Pending::Sleep))),
        Act::Wake => {
            if run.is_pending(&hash) {
                Ok(told(run.wake(&hash, text(alloc, number)?)))
            } else {
                Ok((Answer::Unasked, run))
            }
        }
    }
}

fn text(alloc: Global, number: u16) -> Result<Bytes, lists::Memory> {
    let mut text = Bytes::new(alloc);
    text.push_decimal(u64::from(number))?;
    Ok(text)
}

#[test]
fn names_of_a_run(rt: HostRuntime) -> Result<(), Fail> {
    let rows = [
        (Act::Plan, 2, Answer::New),
        (Act::Pend, 3, Answer::New),
        (Act::Plan, 3, Answer::Known),
        (Act::Plan, 2, Answer::Known),
        (Act::Pend, 2, Answer::Known),
        (Act::Keep, 3, Answer::Known),
        (Act::Wake, 2, Answer::Unasked),
        (Act::Keep, 2, Answer::New),
        (Act::Wake, 3, Answer::New),
        (Act::Keep, 1, Answer::New),
        (Act::Keep, 2, Answer::Known),
        (Act::Plan, 1, Answer::Known),
        (Act::Wake, 3, Answer::Unasked),
    ];
    let mut run = Fresh::empty(rt.alloc()).begin();
    for (what, number, answer) in rows {
        let (got, next) = apply(rt.alloc(), run, what, number)?;
        assert_eq!(rt; got, answer);
        run = next;
    }
    // in the order of recording, and not of names
    let mut order = [2, 3, 1].iter();
    for entry in run.entries() {
        assert_eq!(rt; Some(entry.hash), order.next().map(|number| name(*number)));
    }
    assert!(rt; order.next().is_none() && !run.is_waiting());
    assert_eq!(rt; run.result_of(&name(3)), Some(b"3".as_slice()));
    Ok(())
}

#[test]
fn a_thousand_names(rt: HostRuntime) -> Result<(), Fail> {
    let mut run = Fresh::empty(rt.alloc()).begin();
    for number in 0..1_000 {
        let (got, next) = apply(rt.alloc(), run, Act::Plan, number)?;
        assert_eq!(rt; got, Answer::New);
        run = next;
    }
    let rows = [
        (Act::Plan, 1_000, Answer::Full),
        (Act::Pend, 1_000, Answer::Full),
        (Act::Keep, 1_000, Answer::Full),
        (Act::Plan, 7, Answer::Known),
        (Act::Keep, 7, Answer::New),
        (Act::Keep, 7, Answer::Known),
    ];
    for (what, number, answer) in rows {
        let (got, next) = apply(rt.alloc(), run, what, number)?;
        assert_eq!(rt; got, answer);
        run = next;
    }
    assert_eq!(rt; run.names(), 1_000);
    assert_eq!(rt; RunStatus::from(run.finish()), RunStatus::Completed);
    Ok(())
}

#[test]
fn ends_of_a_run(rt: HostRuntime) -> Result<(), Fail> {
    let run = Fresh::empty(rt.alloc());
    assert_eq!(rt; RunStatus::from(run.cancel()), RunStatus::Cancelled);
    let run = Fresh::empty(rt.alloc()).begin();
    assert_eq!(rt; RunStatus::from(run.cancel()), RunStatus::Cancelled);
    let run = Fresh::empty(rt.alloc()).begin();
    assert_eq!(rt; RunStatus::from(run.fail()), RunStatus::Failed);
    Ok(())
}
