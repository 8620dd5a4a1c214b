// The journal: opened, created and appended to.
ghost use Rattle.std.specs.Prelude.{◌≡◌, ◌<◌, ◌≤◌, [], length, IfOk};
ghost use Rattle.rig.specs.Faults.{CountsDisk};
ghost use Rattle.rig.specs.Told.{GoesOn, StillTells, WhereTold, reads_of};
ghost use Rattle.journal_core.specs.Records.{greatest};
ghost use Rattle.journal_core.specs.Appends.{IsReady, IsOpened, IsAppended, CountsOpening};

use crate::record::Record;
use lists::Memory;
use rig::{DiskFailed, Rig, Side};
use std::alloc::Global;
use std::fmt;
use std::marker::Model;

/// Why a journal isn't opened.
#[derive(Clone, Copy, Debug, PartialEq, Eq)]
pub enum JournalFault {
    /// A call on the disk failed, and the rig counted that.
    Disk,
    /// There was no memory for the room that appending needs.
    Memory,
}

impl fmt::Display for JournalFault {
    fn fmt<W: fmt::Write>(&self, f: &mut fmt::Formatter<W>) -> fmt::Result {
        f.write_str(match self {
            JournalFault::Disk => "a call on the disk failed",
            JournalFault::Memory => "out of memory",
        })
    }
}

impl From<DiskFailed> for JournalFault {
    ghost use Rattle.journal_core.specs.declared.journal.JournalFault.TheVariants as fault;

    ghost from_gives = { λ _ e. e ≡ fault.Disk };

    fn from(_fault: DiskFailed) -> Self {
        JournalFault::Disk
    }
}

impl From<Memory> for JournalFault {
    ghost use Rattle.journal_core.specs.declared.journal.JournalFault.TheVariants as fault;

    ghost from_gives = { λ _ e. e ≡ fault.Memory };

    fn from(_fault: Memory) -> Self {
        JournalFault::Memory
    }
}

/// A journal in file A of a rig: records one after another from offset 0, each a length of four
/// bytes, the highest first, and a payload of so many. Contracts see how many bytes the file has.
///
/// This first format doesn't survive every crash as a journal should: a crash within an append may leave
/// a torn record behind the acknowledged ones, of any bytes and no longer than the record of that
/// payload, and whoever reads the file may take these bytes for payloads.
#[derive(Drop)]
pub struct Journal {
    end: u64,
    record: Record,
}

impl Model for Journal {
    ghost use Rattle.std.specs.Prelude.{ℕ};

    ghost Value = { ℕ };

    ghost view = { λ j. j.end };
}

impl Journal {
    /// Opens an empty file, and takes the room that appending needs.
    pub fn open<R: Rig>(alloc: Global, rig: &mut R) -> Result<Self, JournalFault>
        requires { WhereTold R.tells rig.old (λ now. reads_of Side.A now ≡ []) }
        ensures told { GoesOn R.tells rig.old rig.new (IsOpened (R.steady rig.old) result) }
        ensures ready { IfOk result (λ journal. WhereTold R.tells rig.new (IsReady journal)) }
        ensures tells { StillTells R.tells rig.old rig.new }
        ensures steady { R.steady rig.old → R.steady rig.new }
        ensures counts { CountsOpening result (R.counts rig.old) (R.counts rig.new) }
    {
        let record = Record::with_room(alloc)?;
        rig.sync(Side::A)?;
        Ok(Journal { end: 0, record })
    }

    /// Adds a payload of 1 to 8,388,608 bytes behind the others. At `Ok` it is on the disk. A crash
    /// before that may leave a torn record in its place, which can be read as a payload. After a fault
    /// the file is opened again. A rig that fails only where it is out of memory then has nothing of the
    /// payload in it, or all of its record.
    pub fn append<R: Rig>(mut self, rig: &mut R, payload: &[u8]) -> Result<Self, DiskFailed>
        requires some { 0 < length payload.now }
        requires fits { length payload.now ≤ greatest }
        requires ready { WhereTold R.tells rig.old (IsReady self) }
        ensures told { GoesOn R.tells rig.old rig.new
            (IsAppended (R.steady rig.old) payload.now result) }
        ensures ready { IfOk result (λ journal. WhereTold R.tells rig.new (IsReady journal)) }
        ensures tells { StillTells R.tells rig.old rig.new }
        ensures steady { R.steady rig.old → R.steady rig.new }
        ensures counts { CountsDisk result (R.counts rig.old) (R.counts rig.new) }
    {
        let file = Side::A;
        self.record.spell(payload);
        rig.write(file, self.end, self.record.as_slice())?;
        rig.sync(file)?;
        self.end += 4 + payload.len() as u64;
        Ok(self)
    }
}
