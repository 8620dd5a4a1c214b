use crate::{Program, Status, run};
use rig::{FailedWrite, MemRig, MemSink, MemSource};
use std::alloc::Global;
use std::process::Abort;
use std::test::Fail;

/// One id at 0, 86399999 and 86400000 ms.
const THREE_LINES: &[u8] = b"0 EVENT x i1\n86399999 EVENT x i1\n86400000 EVENT x i1\n";

fn replay(alloc: Global, input: &mut MemSource, out: &mut MemSink) -> Result<Status, Fail> {
    let mut rig = MemRig::new(alloc, 0)?;
    Ok(run(alloc, Program::Replay, &[], &mut rig, input, out))
}

// Runs the script of a source, and checks what is printed and how it ended.
fn ends(
    rt: &(impl Abort + AllocGlobal),
    input: &mut MemSource,
    out: &mut MemSink,
    printed: &str,
    status: Status,
) -> Result<(), Fail> {
    let ended = replay(rt.alloc(), input, out)?;
    assert_eq!(rt; str::from_utf8(out.written()), Ok(printed));
    assert_eq!(rt; ended, status);
    Ok(())
}

// Runs a script that comes in pieces of so many bytes at the most.
pub(crate) fn check(
    rt: &(impl Abort + AllocGlobal),
    script: &[u8],
    piece: usize,
    printed: &str,
    status: Status,
) -> Result<(), Fail> {
    let mut input = MemSource::from_slice(rt.alloc(), script)?;
    input.set_piece(piece.max(1));
    let mut out = MemSink::new(rt.alloc());
    ends(rt, &mut input, &mut out, printed, status)
}

// Runs the script of a source with these words, and checks what is printed.
pub(crate) fn prints(
    rt: &(impl Abort + AllocGlobal),
    words: &[String],
    input: &mut MemSource,
    printed: &str,
) -> Result<(), Fail> {
    let mut rig = MemRig::new(rt.alloc(), 0)?;
    let mut out = MemSink::new(rt.alloc());
    run(
        rt.alloc(),
        Program::Replay,
        words,
        &mut rig,
        input,
        &mut out,
    );
    assert_eq!(rt; str::from_utf8(out.written()), Ok(printed));
    Ok(())
}

// The lines of a row, each ended by a `|`.
pub(crate) fn lines_of(alloc: Global, text: &str) -> Result<String, Fail> {
    Ok(text.replace(alloc, "|", "\n")?)
}

// How a script ends: with a fault in the line of this number, or else done.
fn end_of(text: &str) -> Status {
    match text.parse::<u64>() {
        Ok(line) => Status::Script { line },
        Err(_) => Status::Done,
    }
}

// Runs the script of a row `SCRIPT => PRINTED => END`.
fn check_row(
    rt: &(impl Abort + AllocGlobal),
    script: &str,
    wanted: &str,
    piece: usize,
) -> Result<(), Fail> {
    let Some((printed, end)) = wanted.split_once(" => ") else {
        return Err(Fail::new("no end"))
    };
    let script = lines_of(rt.alloc(), script)?;
    let printed = lines_of(rt.alloc(), printed)?;
    check(rt, script.as_bytes(), piece, &printed, end_of(end))
}

// Runs the script of each row, and gives the number of the rows. A line without ` => ` is a heading.
pub(crate) fn walk(rt: &(impl Abort + AllocGlobal), rows: &str, piece: usize) -> Result<u32, Fail> {
    let mut count: u32 = 0;
    for row in rows.lines() {
        if let Some((script, wanted)) = row.split_once(" => ") {
            check_row(rt, script, wanted, piece)?;
            count = count.wrapping_add(1);
        }
    }
    Ok(count)
}

/// Scripts, with what each prints, and `done` or the number of the line at fault. A `|` is the end of a line.
const SCRIPTS: &str =
    r#"0 EVENT x i1|86399999 EVENT x i1|86400000 EVENT x i1| => answer 200 {"ids":["evt-1"],"status":200}|answer 200 {"ids":["evt-1"],"status":200}|answer 200 {"ids":["evt-2"],"status":200}|end inputs=3 live=0 moment=86400000| => done
1000 EVENT x i1|500 EVENT x i2| => answer 200 {"ids":["evt-1"],"status":200}|answer 200 {"ids":["evt-2"],"status":200}|end inputs=2 live=0 moment=1000| => done
bogus => script fault in line 1| => 1
 => end inputs=0 live=0 moment=0| => done
0 EVENT x i1 => answer 200 {"ids":["evt-1"],"status":200}|end inputs=1 live=0 moment=0| => done
# a comment||007 EVENT x -| => answer 200 {"ids":["evt-1"],"status":200}|end inputs=1 live=0 moment=7| => done
0 EVENT x -|0 EVENT x -| => answer 200 {"ids":["evt-1"],"status":200}|answer 200 {"ids":["evt-2"],"status":200}|end inputs=2 live=0 moment=0| => done
18446744073709551615 EVENT x i1| => answer 200 {"ids":["evt-1"],"status":200}|end inputs=1 live=0 moment=253402300799999| => done
18446744073709551616 EVENT x i1| => script fault in line 1| => 1
0 EVENT x i1|0 EVENT x i1 | => answer 200 {"ids":["evt-1"],"status":200}|script fault in line 2| => 2
0 EVENT  i1| => script fault in line 1| => 1
0 EVENT x| => script fault in line 1| => 1
0 EVENT x i"1| => script fault in line 1| => 1
 0 EVENT x i1| => script fault in line 1| => 1
|0 event x i1| => script fault in line 2| => 2
"#;

#[test]
fn scripts(rt: HostRuntime) -> Result<(), Fail> {
    for piece in [1, 2, 7, 65_536] {
        assert_eq!(rt; walk(&rt, SCRIPTS, piece)?, 15);
    }
    Ok(())
}

// A comment of so many bytes.
fn comment(alloc: Global, size: usize) -> Result<Vec<u8>, Fail> {
    Ok(vec![in alloc; b'#'; size]?)
}

#[test]
fn limit_of_a_line(rt: HostRuntime) -> Result<(), Fail> {
    let mut script = comment(rt.alloc(), 5_242_880)?;
    check(
        &rt,
        &script,
        65_536,
        "end inputs=0 live=0 moment=0\n",
        Status::Done,
    )?;
    script.push(b'#')?;
    check(
        &rt,
        &script,
        65_536,
        "script fault in line 1\n",
        Status::Script { line: 1 },
    )
}

#[test]
fn words_are_refused(rt: HostRuntime) -> Result<(), Fail> {
    let mut words = Vec::new(rt.alloc());
    words.push(String::from_str(rt.alloc(), "--help")?)?;
    let mut rig = MemRig::new(rt.alloc(), 0)?;
    let mut input = MemSource::from_slice(rt.alloc(), THREE_LINES)?;
    let mut out = MemSink::new(rt.alloc());
    let status = run(
        rt.alloc(),
        Program::Replay,
        &words,
        &mut rig,
        &mut input,
        &mut out,
    );
    assert_eq!(rt; status, Status::Usage);
    assert_eq!(rt; status.number(), 2);
    assert_eq!(rt;
        out.written(),
        b"usage: replay [--brief] [--gen N]\n".as_slice()
    );
    assert_eq!(rt; input.read_count(), 0);
    Ok(())
}

/// The number of the read that fails, and what is then printed. The reads give 20, 20 and 13 bytes, and then the end.
const READ_FAULTS: &str = r#"1 => read fault|
2 => answer 200 {"ids":["evt-1"],"status":200}|read fault|
3 => answer 200 {"ids":["evt-1"],"status":200}|answer 200 {"ids":["evt-1"],"status":200}|read fault|
4 => answer 200 {"ids":["evt-1"],"status":200}|answer 200 {"ids":["evt-1"],"status":200}|answer 200 {"ids":["evt-2"],"status":200}|read fault|
"#;

// The number and the lines of a row `NUMBER => PRINTED`.
fn parts_of(alloc: Global, row: &str) -> Result<(u64, String), Fail> {
    let Some((number, printed)) = row.split_once(" => ") else {
        return Err(Fail::new("no number"))
    };
    let Ok(number) = number.parse::<u64>() else {
        return Err(Fail::new("no number"))
    };
    Ok((number, lines_of(alloc, printed)?))
}

// The three lines in reads of 20 bytes, of which the one of this number fails.
fn fails_at_read(
    rt: &(impl Abort + AllocGlobal),
    number: u64,
    printed: &str,
    status: Status,
) -> Result<(), Fail> {
    let mut input = MemSource::from_slice(rt.alloc(), THREE_LINES)?;
    input.set_piece(20);
    input.fail_read(number)?;
    let mut out = MemSink::new(rt.alloc());
    ends(rt, &mut input, &mut out, printed, status)
}

#[test]
fn failing_reads(rt: HostRuntime) -> Result<(), Fail> {
    for row in READ_FAULTS.lines() {
        let (number, printed) = parts_of(rt.alloc(), row)?;
        fails_at_read(&rt, number, &printed, Status::ReadFault)?;
    }
    assert_eq!(rt; READ_FAULTS.lines().count(), 4);
    Ok(())
}

#[test]
fn the_read_behind_the_end_is_not_made(rt: HostRuntime) -> Result<(), Fail> {
    let printed =
        "answer 200 {\"ids\":[\"evt-1\"],\"status\":200}\nanswer 200 {\"ids\":[\"evt-1\"],\"status\":200}\nanswer 200 {\"ids\":[\"evt-2\"],\"status\":200}\nend inputs=3 live=0 moment=86400000\n";
    fails_at_read(&rt, 5, printed, Status::Done)
}

#[test]
fn half_a_line_before_a_fault(rt: HostRuntime) -> Result<(), Fail> {
    let mut input = MemSource::from_slice(rt.alloc(), b"0 EV")?;
    input.fail_read(2)?;
    let mut out = MemSink::new(rt.alloc());
    ends(&rt, &mut input, &mut out, "read fault\n", Status::ReadFault)
}

/// The number of the write that fails, and what is then printed: its first six bytes are left. Each read of 20 bytes
/// ends a line, and what it says is written before the next.
const WRITE_FAULTS: &str = r#"1 => answer
2 => answer 200 {"ids":["evt-1"],"status":200}|answer
3 => answer 200 {"ids":["evt-1"],"status":200}|answer 200 {"ids":["evt-1"],"status":200}|answer
4 => answer 200 {"ids":["evt-1"],"status":200}|answer 200 {"ids":["evt-1"],"status":200}|answer 200 {"ids":["evt-2"],"status":200}|end in
"#;

// The three lines in reads of 20 bytes, where the write of this number fails after so many bytes.
fn fails_at_write(
    rt: &(impl Abort + AllocGlobal),
    number: u64,
    prefix: usize,
    printed: &str,
) -> Result<(), Fail> {
    let mut input = MemSource::from_slice(rt.alloc(), THREE_LINES)?;
    input.set_piece(20);
    let mut out = MemSink::new(rt.alloc());
    out.fail_write(FailedWrite { number, prefix })?;
    ends(rt, &mut input, &mut out, printed, Status::WriteFault)
}

#[test]
fn failing_writes(rt: HostRuntime) -> Result<(), Fail> {
    for row in WRITE_FAULTS.lines() {
        let (number, printed) = parts_of(rt.alloc(), row)?;
        fails_at_write(&rt, number, 6, &printed)?;
    }
    assert_eq!(rt; WRITE_FAULTS.lines().count(), 4);
    Ok(())
}

#[test]
fn nothing_is_written(rt: HostRuntime) -> Result<(), Fail> {
    fails_at_write(&rt, 1, 0, "")
}

#[test]
fn statuses(rt: HostRuntime) {
    let table = [
        (Status::Done, 0u8),
        (Status::Memory, 4),
        (Status::Script { line: 9 }, 6),
        (Status::ReadFault, 7),
        (Status::WriteFault, 8),
        (Status::NumbersSpent, 11),
    ];
    for (status, number) in &table {
        assert_eq!(rt; status.number(), *number);
    }
}
