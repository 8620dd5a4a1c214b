// The disk, the network and the clock, as a trait.
ghost use Rattle.std.specs.Prelude.{◌≡◌, ◌<◌, ◌≤◌, ◌+◌, length, IfOk, OnOk};
ghost use Rattle.rig.specs.Disk.{IsSoundDisk};
ghost use Rattle.rig.specs.Faults.{Counts, CountsDisk};
ghost use Rattle.rig.specs.Told.{History, StillTells, WhereTold, HasOneNow, OneCall, reads_of};
ghost use Rattle.rig.specs.Told.{Stays, NotesReading, AsksAttach, IsSize, IsRead, WritesFile, CutsFile, SyncsFile};

use crate::Side;
use std::fmt;

/// A call on the disk failed, and the rig counted the fault.
#[derive(Clone, Copy, Debug, PartialEq, Eq)]
pub struct DiskFailed;

impl fmt::Display for DiskFailed {
    fn fmt<W: fmt::Write>(&self, f: &mut fmt::Formatter<W>) -> fmt::Result {
        f.write_str("a call on the disk failed")
    }
}

/// The disk, the network and the clock, with one count of calls.
///
/// What it holds is a relation between the rig and histories, so that a rig that keeps nothing of
/// its past can tell, and one over a real machine tells nothing. A clause that is `OneCall` says what
/// a call adds to what is told. The counts of faults are always told.
///
/// A crash may fall within each call on the disk, and leaves an image of the call's moment or of the
/// one before. No file is ever longer than 2^63 - 1 bytes: a write that would pass it fails.
pub trait Rig {
    /// What has been and is, where the rig tells.
    ghost tells: { Self → History → Type 0 };

    /// How often its calls have failed. Each count stays at 2^64 - 1.
    ghost counts: { Self → Counts };

    /// Whether no call on the disk is made to fail. A call of such a rig that fails all the same has done
    /// nothing.
    ghost steady: { Self → Type 0 };

    /// Takes the two files of this directory, which must be there. A file that isn't there is made,
    /// empty.
    fn attach(&mut self, dir: &str) -> Result<(), DiskFailed>
        ensures told { OneCall tells self.old self.new
            (AsksAttach dir.now (counts self.old) (counts self.new)) }
        ensures tells { StillTells tells self.old self.new }
        ensures steady { steady self.old → steady self.new }
        ensures counts { CountsDisk result (counts self.old) (counts self.new) };

    /// How many bytes the file has.
    fn size(&mut self, file: Side) -> Result<u64, DiskFailed>
        ensures told { OneCall tells self.old self.new (IsSize file result) }
        ensures tells { StillTells tells self.old self.new }
        ensures steady { steady self.old → steady self.new }
        ensures fits { IfOk result (λ len. len < 9223372036854775808) }
        ensures counts { CountsDisk result (counts self.old) (counts self.new) };

    /// Reads bytes from this offset on to the front of the buffer, at least one, and says how many.
    fn read(&mut self, file: Side, at: u64, buf: &mut [u8]) -> Result<usize, DiskFailed>
        requires room { 0 < length buf.old }
        requires inside { WhereTold tells self.old (λ now. at < length (reads_of file now)) }
        ensures told { OneCall tells self.old self.new (IsRead file at buf.new result) }
        ensures tells { StillTells tells self.old self.new }
        ensures steady { steady self.old → steady self.new }
        ensures some { IfOk result (λ count. 0 < count) }
        ensures count { IfOk result (λ count. count ≤ length buf.old) }
        ensures counts { CountsDisk result (counts self.old) (counts self.new) };

    /// Writes the bytes from this offset on.
    fn write(&mut self, file: Side, at: u64, bytes: &[u8]) -> Result<(), DiskFailed>
        requires { WhereTold tells self.old (λ now. at ≤ length (reads_of file now)) }
        ensures told { OneCall tells self.old self.new
            (WritesFile file (steady self.old) at bytes.now result) }
        ensures tells { StillTells tells self.old self.new }
        ensures steady { steady self.old → steady self.new }
        ensures fits { OnOk result (at + length bytes.now < 9223372036854775808) }
        ensures counts { CountsDisk result (counts self.old) (counts self.new) };

    /// Cuts the file to so many bytes.
    fn cut(&mut self, file: Side, len: u64) -> Result<(), DiskFailed>
        requires { WhereTold tells self.old (λ now. len ≤ length (reads_of file now)) }
        ensures told { OneCall tells self.old self.new (CutsFile file (steady self.old) len result) }
        ensures tells { StillTells tells self.old self.new }
        ensures steady { steady self.old → steady self.new }
        ensures fits { OnOk result (len < 9223372036854775808) }
        ensures counts { CountsDisk result (counts self.old) (counts self.new) };

    /// Brings all of the file to the disk: from then on a crash leaves what a read gives.
    fn sync(&mut self, file: Side) -> Result<(), DiskFailed>
        ensures told { OneCall tells self.old self.new (SyncsFile file (steady self.old) result) }
        ensures tells { StillTells tells self.old self.new }
        ensures steady { steady self.old → steady self.new }
        ensures counts { CountsDisk result (counts self.old) (counts self.new) };

    /// Reads the clock, in milliseconds since 1970. Readings may go back. Telling may end here.
    fn now(&mut self) -> u64
        ensures told { OneCall tells self.old self.new (NotesReading result) }
        ensures steady { steady self.old → steady self.new }
        ensures counts { counts self.new ≡ counts self.old };

    /// Waits for so many milliseconds, about.
    fn rest(&mut self, ms: u64)
        ensures told { OneCall tells self.old self.new Stays }
        ensures tells { StillTells tells self.old self.new }
        ensures steady { steady self.old → steady self.new }
        ensures counts { counts self.new ≡ counts self.old };

    /// All that a rig tells has one moment now.
    ghost one_now: { (rig : Self) → HasOneNow tells rig };

    /// What a read gives is what a crash may leave, and so is what was kept.
    ghost sound: { (rig : Self) → WhereTold tells rig (λ now. IsSoundDisk now.disk) };
}
