use lists::Memory;
use rig::{FailForm, Image, MemRig, Rig, Side, SilentRig};
use std::alloc::Global;
use std::test::Fail;

// A call on file A.
#[derive(Clone, Copy)]
enum Call {
    Attach,
    Size,
    Write(u64, &'static [u8]),
    Cut(u64),
    Sync,
}

fn make(rig: &mut SilentRig, call: Call) -> bool {
    match call {
        Call::Attach => rig.attach("data").is_ok(),
        Call::Size => rig.size(Side::A).is_ok(),
        Call::Write(at, bytes) => rig.write(Side::A, at, bytes).is_ok(),
        Call::Cut(len) => rig.cut(Side::A, len).is_ok(),
        Call::Sync => rig.sync(Side::A).is_ok(),
    }
}

// The rig after these calls, whatever they answer.
fn after(rig: MemRig, calls: &[Call]) -> MemRig {
    let mut rig = SilentRig::new(rig);
    for call in calls {
        let _ = make(&mut rig, *call);
    }
    rig.into_inner()
}

// Calls on a file that begins as `abcdef`, how the first fails where it does, which write, cut or sync is
// stopped, and what begins anew behind that.
struct Row {
    calls: &'static [Call],
    form: Option<FailForm>,
    stop: u64,
    image: Image,
    faults: u64,
    reads: &'static [u8],
    left: &'static [u8],
}

// Worked out by hand.
static ROWS: [Row; 5] = [
    Row {
        calls: &[
            Call::Write(6, b"GH"),
            Call::Attach,
            Call::Cut(4),
            Call::Sync,
            Call::Size,
        ],
        form: None,
        stop: 9,
        image: Image::Kept,
        faults: 0,
        reads: b"abcd",
        left: b"abcd",
    },
    Row {
        calls: &[Call::Write(7, b"x"), Call::Cut(7)],
        form: None,
        stop: 9,
        image: Image::Whole,
        faults: 2,
        reads: b"abcdef",
        left: b"abcdef",
    },
    Row {
        calls: &[Call::Write(6, b"GHI"), Call::Size],
        form: Some(FailForm::Half),
        stop: 9,
        image: Image::Kept,
        faults: 1,
        reads: b"abcdefG",
        left: b"abcdef",
    },
    Row {
        calls: &[Call::Cut(2), Call::Size],
        form: Some(FailForm::All),
        stop: 9,
        image: Image::Whole,
        faults: 1,
        reads: b"ab",
        left: b"ab",
    },
    Row {
        calls: &[
            Call::Write(6, b"GH"),
            Call::Sync,
            Call::Write(0, b"XY"),
            Call::Size,
        ],
        form: None,
        stop: 3,
        image: Image::Half,
        faults: 2,
        reads: b"XYcdefGH",
        left: b"XbcdefGH",
    },
];

// The rig of a row, before its calls.
fn set_up(alloc: Global, row: &Row) -> Result<MemRig, Memory> {
    let mut rig = MemRig::from_files(alloc, b"abcdef", b"", 0)?;
    if let Some(form) = row.form {
        rig.fail_at(1, form)?;
    }
    rig.stop_at(row.stop.max(1));
    Ok(rig)
}

#[test]
fn calls_on_the_disk_do_their_rows(rt: HostRuntime) -> Result<(), Fail> {
    for row in &ROWS {
        let rig = after(set_up(rt.alloc(), row)?, row.calls);
        assert_eq!(rt; rig.file(Side::A), row.reads);
        assert_eq!(rt; rig.disk_calls(), row.calls.len() as u64);
        assert_eq!(rt; rig.disk_fault_count(), row.faults);
        assert_eq!(rt; rig.starved_count(), 0);
        let rig = rig.restart(rt.alloc(), row.image, 0)?;
        assert_eq!(rt; rig.file(Side::A), row.left);
    }
    Ok(())
}

// Reads from file B of the rig.
fn read(rig: MemRig, at: u64, buffer: &mut [u8; 4]) -> Option<usize> {
    SilentRig::new(rig).read(Side::B, at, buffer).ok()
}

#[test]
fn a_file_is_read_from_an_offset(rt: HostRuntime) -> Result<(), Fail> {
    let mut buffer = [0u8; 4];
    let rig = MemRig::from_files(rt.alloc(), b"", b"abcdef", 0)?;
    assert_eq!(rt; read(rig, 3, &mut buffer), Some(3));
    assert_eq!(rt; buffer[..3], b"def"[..]);
    Ok(())
}
