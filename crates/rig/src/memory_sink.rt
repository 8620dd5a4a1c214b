// The sink in memory.
ghost use Rattle.std.specs.Prelude.{◌≡◌, ◌==◌, find, OnOk, OnErr};
ghost use Rattle.rig.specs.MemorySink.{MemorySink, blank_sink, outgoing_of, with_failing, starving, Sinks};
ghost use Rattle.rig.specs.Written.{PutsOut};

use crate::faults::next_count;
use crate::{Sink, WriteFailed};
use lists::{Bytes, Items, Memory};
use std::alloc::Global;
use std::marker::Model;

/// A write that is set to fail.
#[derive(Clone, Copy, Debug, PartialEq, Eq)]
pub struct FailedWrite {
    /// Its number, counted from 1 over all writes of the sink.
    pub number: u64,
    /// How many of its bytes it writes first.
    pub prefix: usize,
}

/// A sink that keeps what is written to it, for tests. It can fail at chosen writes.
#[derive(Drop)]
pub struct MemSink {
    written: Bytes,
    failing: Items<FailedWrite>,
    writes: u64,
    faults: u64,
    starved: u64,
}

impl Model for MemSink {
    ghost use Rattle.rig.specs.MemorySink.{MemorySink};

    ghost Value = { MemorySink };

    ghost view = { λ s. record {
      written = s.written;
      failing = s.failing;
      writes = s.writes;
      faults = s.faults;
      starved = s.starved;
    } };
}

impl MemSink {
    /// A sink to which nothing was written, and that fails only where it is out of memory.
    pub fn new(alloc: Global) -> Self
        ensures { result ≡ blank_sink }
    {
        MemSink {
            written: Bytes::new(alloc),
            failing: Items::new(alloc),
            writes: 0,
            faults: 0,
            starved: 0,
        }
    }

    /// Lets a write fail.
    pub fn fail_write(&mut self, failed: FailedWrite) -> Result<(), Memory>
        ensures ok { OnOk result (self.new ≡ with_failing failed self.old) }
        ensures err { OnErr result (self.new ≡ self.old) }
    {
        self.failing.push(failed)?;
        Ok(())
    }

    /// The bytes that were written.
    pub fn written(&self) -> &[u8]
        ensures { result.now ≡ self.now.written }
    {
        self.written.as_slice()
    }

    /// How many writes there were, failed ones too.
    pub fn write_count(&self) -> u64
        ensures { result ≡ self.now.writes }
    {
        self.writes
    }

    /// How many writes failed.
    pub fn fault_count(&self) -> u64
        ensures { result ≡ self.now.faults }
    {
        self.faults
    }

    /// How many writes failed because the sink was out of memory.
    pub fn starved_count(&self) -> u64
        ensures { result ≡ self.now.starved }
    {
        self.starved
    }

    // A write found no memory, and its fault is counted.
    fn starve(&mut self) -> WriteFailed
        ensures { self.new ≡ starving self.old }
    {
        self.faults = next_count(self.faults);
        self.starved = next_count(self.starved);
        WriteFailed
    }
}

impl Sink for MemSink {
    ghost outgoing = { outgoing_of };

    fn write(&mut self, bytes: &[u8]) -> Result<(), WriteFailed>
        ensures written { PutsOut bytes.now result (outgoing_of self.old) (outgoing_of self.new) }

        // It does what is set for it, or it finds no memory and does nothing.
        ensures sinks { Sinks bytes.now result self.old self.new }
    {
        self.writes = next_count(self.writes);
        let Some(failed) = find_write(self.failing.as_slice(), self.writes) else {
            if self.written.extend_from_slice(bytes).is_err() {
                return Err(self.starve());
            }
            return Ok(());
        };
        let (prefix, _) = bytes.split_at(failed.prefix.min(bytes.len()));
        if self.written.extend_from_slice(prefix).is_err() {
            return Err(self.starve());
        }
        self.faults = next_count(self.faults);
        Err(WriteFailed)
    }
}

// How the write of this number is set to fail, where it is.
fn find_write(failing: &[FailedWrite], number: u64) -> Option<FailedWrite>
    ensures { result ≡ find (λ (f : FailedWrite). f.number == number) failing.now }
{
    failing.iter().copied().find(|f| f.number == number)
}
