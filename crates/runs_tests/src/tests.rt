ghost use Rattle.std.specs.Prelude.{◌≡◌, ◌<◌, [], IfOk};
ghost use Rattle.std.specs.List.{AllByRecursion};

use kinds::{CellLimits, Numbers, Parent, Pending, RunStatus, StepHash};
use lists::{Bytes, Items, Memory};
use runs::{EndedRun, EndedRuns, Naming, Origin, Run, Runs, error_result};
use std::alloc::Global;
use std::process::Abort;
use std::test::Fail;

#[derive(Clone, Copy)]
enum Act {
    Want,
    Call,
    Keep,
    Plan,
    Pend,
    Wake,
    End,
    Close,
}

#[derive(Clone, Copy, Debug, PartialEq, Eq)]
enum Answer {
    Done,
    New,
    Known,
    Full,
    Woken,
    Asleep,
}

fn name(number: u8) -> StepHash {
    let mut digits = [b'0'; 40];
    digits[39] = b'0' + number % 10;
    StepHash::new(digits)
}

fn numbers(alloc: Global, first: u64, count: u64) -> Result<Numbers, Memory> {
    let mut numbers = Items::new(alloc);
    for k in 0..count {
        numbers.push(first.saturating_add(k))?;
    }
    Ok(numbers)
}

/// A run of this number with so many events from it on.
fn made(alloc: Global, number: u64, events: u64) -> Result<Run, Memory>
    ensures { IfOk result (λ run. run.number ≡ number) }
{
    let origin = Origin {
        number,
        moment: 5_000,
        version: number % 2,
        events: numbers(alloc, number, events)?,
        cells: CellLimits::new(alloc, Items::new(alloc))?,
        start: None,
        shift: 3,
        parent: Some(Parent {
            run: 1,
            hash: name(1),
        }),
    };
    Run::new(alloc, origin)
}

/// The runs from 0 on, so many, each with two events from its number on.
fn filled(alloc: Global, count: u64) -> Result<Runs, Memory> {
    let mut runs = Runs::empty(alloc);
    for number in 0..count {
        let added = made(alloc, number, 2)?;
        runs.add(added)?;
    }
    Ok(runs)
}

fn told(naming: Naming) -> Answer {
    match naming {
        Naming::New => Answer::New,
        Naming::Known => Answer::Known,
        Naming::Full => Answer::Full,
    }
}

fn text(alloc: Global) -> Result<Bytes, Memory> {
    Bytes::from_slice(alloc, b"null")
}

fn apply(alloc: Global, runs: &mut Runs, act: Act, run: u64, step: u8) -> Result<Answer, Memory> {
    let hash = name(step);
    match act {
        Act::Want => {
            runs.want(run);
            Ok(Answer::Done)
        }
        Act::Call => {
            runs.call(run, b"step".as_slice());
            Ok(Answer::Done)
        }
        Act::Keep => Ok(told(runs.keep(run, &hash, text(alloc)?)?)),
        Act::Plan => Ok(told(runs.plan(run, &hash)?)),
        Act::Pend => Ok(told(runs.pend(run, &hash, Pending::Sleep)?)),
        Act::Wake => {
            if runs.wake(run, &hash, text(alloc)?)? {
                Ok(Answer::Woken)
            } else {
                Ok(Answer::Asleep)
            }
        }
        Act::End => {
            runs.end(run)?;
            Ok(Answer::Done)
        }
        Act::Close => {
            let _ = runs.close(run);
            Ok(Answer::Done)
        }
    }
}

#[test]
fn runs_begin_and_end(rt: HostRuntime) -> Result<(), Fail> {
    let rows = [
        (Act::Call, 1, 0, Answer::Done),
        (Act::Plan, 1, 5, Answer::New),
        (Act::Plan, 1, 5, Answer::Known),
        (Act::Pend, 1, 6, Answer::New),
        (Act::Keep, 1, 6, Answer::Known),
        (Act::Wake, 1, 6, Answer::Woken),
        (Act::Wake, 1, 6, Answer::Asleep),
        (Act::Keep, 1, 5, Answer::New),
        (Act::Keep, 9, 5, Answer::Known),
        (Act::Pend, 9, 5, Answer::Known),
        (Act::Want, 9, 0, Answer::Done),
        (Act::Keep, 3, 1, Answer::New),
        (Act::End, 3, 0, Answer::Done),
        (Act::End, 0, 0, Answer::Done),
        (Act::End, 2, 0, Answer::Done),
        (Act::Close, 2, 0, Answer::Done),
        (Act::End, 9, 0, Answer::Done),
    ];
    let mut runs = filled(rt.alloc(), 4)?;
    for (act, run, step, answer) in rows {
        assert_eq!(rt; apply(rt.alloc(), &mut runs, act, run, step)?, answer);
    }
    tell_of_lists(&rt, &runs);
    assert_eq!(rt; runs.of_event(2)?.as_slice(), [1u64].as_slice());
    let Some(run) = runs.live(1) else {
        return Err(Fail::new("a run is lost"));
    };
    tell_of_run(&rt, run);
    Ok(())
}

// One run has not ended, and the calls of two are open still.
fn tell_of_lists(rt: &impl Abort, runs: &Runs) {
    assert_eq!(rt; runs.count(), 1);
    assert_eq!(rt; runs.results(), 8);
    assert_eq!(rt; runs.live_runs().count(), 1);
    assert_eq!(rt; runs.closing_runs().count(), 2);
    assert!(rt; runs.is_used(2) && !runs.is_used(3));
    assert!(rt; runs.is_named(4) && runs.is_named(0) && !runs.is_named(5));
    assert!(rt; runs.names_version(0) && !runs.names_version(2));
    assert!(rt; runs.find_closing(0).is_some() && runs.find_closing(2).is_none());
}

// Two steps of the run are recorded.
fn tell_of_run(rt: &impl Abort, run: &Run) {
    assert!(rt; run.is_wanted() && run.has_planned() && run.has_started() && !run.is_waiting());
    assert_eq!(rt; run.score(), 2_000);
    assert_eq!(rt; run.first(), 1);
    assert!(rt;
        run.is_recorded(&name(5)) && !run.has_new_result(&name(6)) && !run.is_pending(&name(6))
    );
    assert_eq!(rt; run.result_of(&name(6)), Some(b"null".as_slice()));
    assert_eq!(rt; run.steps().len(), 2);
}

#[test]
fn a_result_past_the_bytes_of_a_run_is_an_error(rt: HostRuntime) -> Result<(), Fail> {
    let mut runs = filled(rt.alloc(), 2)?;
    let mut large = Bytes::new(rt.alloc());
    for _ in 0..65_536u32 {
        large.extend_from_slice(
            b"0123456789012345678901234567890123456789012345678901234567890123",
        )?;
    }
    assert_eq!(rt; runs.keep(1, &name(1), large.clone()?)?, Naming::New);
    assert_eq!(rt; runs.results(), 4_194_304);
    assert_eq!(rt; runs.keep(1, &name(2), large)?, Naming::New);
    let text = error_result(
        rt.alloc(),
        b"{\"name\":\"Error\",\"message\":\"run state too large\"}",
    )?;
    let Some(run) = runs.live(1) else {
        return Err(Fail::new("a run is lost"));
    };
    assert_eq!(rt; run.result_of(&name(2)), Some(text.as_slice()));
    Ok(())
}

fn ended(alloc: Global, run: u64) -> Result<EndedRun, Memory>
    ensures { IfOk result (λ e. e.run ≡ run) }
{
    Ok(EndedRun {
        run,
        moment: 7,
        function: Bytes::from_slice(alloc, b"f")?,
        status: RunStatus::Completed,
        events: numbers(alloc, run % 500, 1)?,
    })
}

/// The runs from 0 on, so many, and the last that passed out.
fn all_ended(alloc: Global, count: u64) -> Result<(EndedRuns, Option<u64>), Memory> {
    let mut runs = EndedRuns::empty(alloc);
    let mut out = None;
    for number in 0..count {
        let added = ended(alloc, number)?;
        out = runs.add(added)?;
    }
    Ok((runs, out))
}

#[test]
fn ended_runs_pass_out(rt: HostRuntime) -> Result<(), Fail> {
    let (_, none) = all_ended(rt.alloc(), 1_000)?;
    assert_eq!(rt; none, None);
    let (mut runs, out) = all_ended(rt.alloc(), 1_003)?;
    assert_eq!(rt; out, Some(2));
    assert_eq!(rt; runs.of_event(2)?.as_slice(), [502u64, 1_002].as_slice());
    assert_eq!(rt; runs.of_event(4)?.as_slice(), [4u64, 504].as_slice());
    assert!(rt; runs.is_last(3) && !runs.is_last(2));
    assert_eq!(rt; runs.get_last(400).map(|e| e.events.len()), Some(1));
    runs.drop_before_last(3);
    runs.drop_before_last(1);
    assert!(rt; runs.is_last(3));
    Ok(())
}
