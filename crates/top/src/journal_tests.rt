use replay_core::{Form, ReplayEnd, run_lines};
use rig::{FailedWrite, MemRig, MemSink, MemSource, Side};
use std::process::Abort;
use std::test::Fail;

/// One id at 0, 86399999 and 86400000 ms.
const THREE_LINES: &[u8] = b"0 EVENT x i1\n86399999 EVENT x i1\n86400000 EVENT x i1\n";

/// File A after one of these lines, after two, and after three.
const ONE: &[u8] = b"\x00\x00\x00\x0c0 EVENT x i1";

const TWO: &[u8] = b"\x00\x00\x00\x0c0 EVENT x i1\x00\x00\x00\x1386399999 EVENT x i1";

const THREE: &[u8] =
    b"\x00\x00\x00\x0c0 EVENT x i1\x00\x00\x00\x1386399999 EVENT x i1\x00\x00\x00\x1386400000 EVENT x i1";

// Runs a script over a blank rig, and checks how it ended and what file A then has.
fn check(
    rt: &(impl Abort + AllocGlobal),
    input: &mut MemSource,
    out: &mut MemSink,
    end: ReplayEnd,
    file: &[u8],
) -> Result<(), Fail> {
    let mut rig = MemRig::new(rt.alloc(), 0)?;
    let ended = run_lines(rt.alloc(), Form::Full, &mut rig, input, out);
    assert_eq!(rt; ended, end);
    assert_eq!(rt; rig.file(Side::A), file);
    assert_eq!(rt; rig.file(Side::B).len(), 0);
    assert_eq!(rt; rig.starved_count(), 0);
    Ok(())
}

// The script in pieces of so many bytes at the most.
fn keeps_in_pieces(
    rt: &(impl Abort + AllocGlobal),
    script: &[u8],
    piece: usize,
    end: ReplayEnd,
    file: &[u8],
) -> Result<(), Fail> {
    let mut input = MemSource::from_slice(rt.alloc(), script)?;
    input.set_piece(piece.max(1));
    let mut out = MemSink::new(rt.alloc());
    check(rt, &mut input, &mut out, end, file)
}

// A script ends so, with this file, however it is cut.
fn keeps(
    rt: &(impl Abort + AllocGlobal),
    script: &[u8],
    end: ReplayEnd,
    file: &[u8],
) -> Result<(), Fail> {
    for piece in [1usize, 7, 65_536] {
        keeps_in_pieces(rt, script, piece, end, file)?;
    }
    Ok(())
}

#[test]
fn accepted_lines_are_kept(rt: HostRuntime) -> Result<(), Fail> {
    keeps(&rt, THREE_LINES, ReplayEnd::Done, THREE)?;
    keeps(
        &rt,
        b"# a comment\n5 EVENT x i1\n\n5 EVENT x i1\n",
        ReplayEnd::Done,
        b"\x00\x00\x00\x0c5 EVENT x i1\x00\x00\x00\x0c5 EVENT x i1",
    )?;
    keeps(&rt, b"", ReplayEnd::Done, b"")?;
    keeps(&rt, b"#\n", ReplayEnd::Done, b"")?;
    keeps(
        &rt,
        b"007 EVENT x -",
        ReplayEnd::Done,
        b"\x00\x00\x00\x0d007 EVENT x -",
    )?;
    keeps(
        &rt,
        b"1 EVENTS {\"name\":\"x\"}\n",
        ReplayEnd::Done,
        b"\x00\x00\x00\x151 EVENTS {\"name\":\"x\"}",
    )?;
    keeps(&rt, b"5 EVENTS []\n0 EVENTS nul\n", ReplayEnd::Done, b"")
}

#[test]
fn lines_before_a_fault_are_kept(rt: HostRuntime) -> Result<(), Fail> {
    keeps(&rt, b"bogus\n", ReplayEnd::Script { line: 1 }, b"")?;
    keeps(
        &rt,
        b"0 EVENT x i1\n0 EVENT x i1 \n0 EVENT x i2\n",
        ReplayEnd::Script { line: 2 },
        ONE,
    )?;
    keeps(
        &rt,
        b"0 EVENT x i1\nbogus",
        ReplayEnd::Script { line: 2 },
        ONE,
    )
}

// The sink fails at the write of this number, after so many bytes. Each read of 20 bytes ends a line, and what it
// says is written before the next: the writes are three answers and the end line.
fn is_kept_first(
    rt: &(impl Abort + AllocGlobal),
    number: u64,
    prefix: usize,
    file: &[u8],
) -> Result<(), Fail> {
    let mut input = MemSource::from_slice(rt.alloc(), THREE_LINES)?;
    input.set_piece(20);
    let mut out = MemSink::new(rt.alloc());
    out.fail_write(FailedWrite { number, prefix })?;
    check(rt, &mut input, &mut out, ReplayEnd::WriteFault, file)
}

#[test]
fn a_line_is_kept_before_its_answer(rt: HostRuntime) -> Result<(), Fail> {
    for prefix in [0usize, 6] {
        is_kept_first(&rt, 1, prefix, ONE)?;
        is_kept_first(&rt, 2, prefix, TWO)?;
        is_kept_first(&rt, 3, prefix, THREE)?;
        is_kept_first(&rt, 4, prefix, THREE)?;
    }
    Ok(())
}

// The source fails at the read of this number. The reads give 20, 20 and 13 bytes, and then the end.
fn is_left(
    rt: &(impl Abort + AllocGlobal),
    number: u64,
    end: ReplayEnd,
    file: &[u8],
) -> Result<(), Fail> {
    let mut input = MemSource::from_slice(rt.alloc(), THREE_LINES)?;
    input.set_piece(20);
    input.fail_read(number)?;
    let mut out = MemSink::new(rt.alloc());
    check(rt, &mut input, &mut out, end, file)
}

#[test]
fn a_failing_read_leaves_the_ended_lines(rt: HostRuntime) -> Result<(), Fail> {
    is_left(&rt, 1, ReplayEnd::ReadFault, b"")?;
    is_left(&rt, 2, ReplayEnd::ReadFault, ONE)?;
    is_left(&rt, 3, ReplayEnd::ReadFault, TWO)?;
    is_left(&rt, 4, ReplayEnd::ReadFault, THREE)?;
    is_left(&rt, 5, ReplayEnd::Done, THREE)
}
