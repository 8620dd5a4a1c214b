// The journal over a rig in memory. A call on it fails only for want of memory.
ghost use Rattle.std.specs.Prelude.{◌≡◌, ◌<◌, ◌≤◌, ◌++◌, ◌∷◌, ◌⊎◌, [], length, IfOk, OnErr, OnOk};
ghost use Rattle.journal_core.specs.Records.{StandsFor, greatest};
ghost use Rattle.replay_core.specs.Log.{IsBlank, IsLogging, Logs, StandsForEither, payloads_in};

use journal_core::Journal;
use lists::Memory;
use rig::MemRig;
use std::alloc::Global;

/// Opens the journal in a blank rig.
pub fn open_journal(alloc: Global, rig: &mut MemRig) -> Result<Journal, Memory>
    requires { IsBlank rig.old }
    ensures log { IfOk result (λ journal. Logs [] [] journal rig.new) }
    ensures failed { OnErr result (StandsFor [] rig.new.a.bytes) }
    ensures starved { OnOk result (rig.new.counts.starved ≡ rig.old.counts.starved) }
{
    match Journal::open(alloc, rig) {
        Ok(journal) => Ok(journal),
        Err(_) => Err(Memory),
    }
}

/// Adds a line to the journal, and brings it to the disk.
pub fn append_line(journal: Journal, rig: &mut MemRig, line: &[u8]) -> Result<Journal, Memory>
    requires some { 0 < length line.now }
    requires fits { length line.now ≤ greatest }
    requires logging { IsLogging journal rig.old }
    ensures log { IfOk result (λ journal. Logs (payloads_in rig.old) (line.now ∷ []) journal rig.new) }
    ensures failed { OnErr result
        (StandsForEither (payloads_in rig.old) (line.now ∷ []) rig.new.a.bytes) }
    ensures starved { OnOk result (rig.new.counts.starved ≡ rig.old.counts.starved) }
{
    match journal.append(rig, line) {
        Ok(journal) => Ok(journal),
        Err(_) => Err(Memory),
    }
}
