ghost use Rattle.std.specs.Prelude.{◌<◌};

use crate::{Journal, JournalFault};
use rig::{FailForm, Image, MemRig, Side};
use std::alloc::Global;
use std::test::Fail;

#[test]
fn records_stand_one_behind_another(rt: HostRuntime) -> Result<(), Fail> {
    let mut rig = MemRig::new(rt.alloc(), 0)?;
    let journal = Journal::open(rt.alloc(), &mut rig)?;
    let journal = journal.append(&mut rig, b"abc")?;
    let _journal = journal.append(&mut rig, b"\n")?;
    assert_eq!(rt;
        rig.file(Side::A),
        b"\x00\x00\x00\x03abc\x00\x00\x00\x01\n".as_slice()
    );
    assert_eq!(rt; rig.disk_calls(), 5);
    Ok(())
}

// Appends two payloads, crashes within a call of the second, and gives what that leaves.
fn after_crash(alloc: Global, change: u64, image: Image) -> Result<MemRig, Fail>
    requires { 0 < change }
{
    let mut rig = MemRig::new(alloc, 0)?;
    rig.stop_at(change);
    let journal = Journal::open(alloc, &mut rig)?;
    let journal = journal.append(&mut rig, b"abc")?;
    let _ = journal.append(&mut rig, b"xyz");
    Ok(rig.restart(alloc, image, 0)?)
}

#[test]
fn a_crash_leaves_the_first_record(rt: HostRuntime) -> Result<(), Fail> {
    // within the write, and within the sync
    let half = after_crash(rt.alloc(), 4, Image::Half)?;
    assert_eq!(rt;
        half.file(Side::A),
        b"\x00\x00\x00\x03abc\x00\x00\x00".as_slice()
    );
    let whole = after_crash(rt.alloc(), 5, Image::Whole)?;
    assert_eq!(rt;
        whole.file(Side::A),
        b"\x00\x00\x00\x03abc\x00\x00\x00\x03xyz".as_slice()
    );
    Ok(())
}

// What comes of a journal of one payload, where the call on the disk of this number fails.
fn with_fault(alloc: Global, call: u64) -> Result<&'static str, Fail> {
    let mut rig = MemRig::new(alloc, 0)?;
    rig.fail_at(call, FailForm::Nothing)?;
    let journal = match Journal::open(alloc, &mut rig) {
        Ok(journal) => journal,
        Err(JournalFault::Disk) => return Ok("not opened"),
        Err(JournalFault::Memory) => return Ok("out of memory"),
    };
    match journal.append(&mut rig, b"abc") {
        Ok(_) => Ok("appended"),
        Err(_) => Ok("not appended"),
    }
}

#[test]
fn a_failed_call_is_answered(rt: HostRuntime) -> Result<(), Fail> {
    assert_eq!(rt; with_fault(rt.alloc(), 1)?, "not opened");
    assert_eq!(rt; with_fault(rt.alloc(), 2)?, "not appended");
    assert_eq!(rt; with_fault(rt.alloc(), 3)?, "not appended");
    assert_eq!(rt; with_fault(rt.alloc(), 4)?, "appended");
    Ok(())
}
