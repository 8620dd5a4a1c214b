// The source in memory.
ghost use Rattle.std.specs.Prelude.{◌≡◌, ◌<◌, length, take, min, IfOk, OnOk, OnErr};
ghost use Rattle.rig.specs.Flow.{TakesIn};
ghost use Rattle.rig.specs.MemorySource.{MemorySource, source_of, incoming_of, with_failing, read_answer, after_read};

use crate::faults::next_count;
use crate::{ReadFailed, Source};
use lists::{Bytes, Items, Memory};
use std::alloc::Global;
use std::marker::Model;

/// A source over bytes in memory, for tests and for whole inputs that lie in memory. It can give its
/// bytes in pieces, and fail at chosen reads.
#[derive(Drop)]
pub struct MemSource {
    bytes: Bytes,
    at: usize,
    piece: usize,
    failing: Items<u64>,
    reads: u64,
    faults: u64,
}

impl Model for MemSource {
    ghost use Rattle.std.specs.Prelude.{◌≤◌, ◌<◌, length, take, drop};
    ghost use Rattle.rig.specs.MemorySource.{MemorySource};

    ghost Value = { MemorySource };

    ghost view = { λ s. record {
      flow = record { given = take s.at s.bytes; left = drop s.at s.bytes };
      piece = s.piece;
      failing = s.failing;
      reads = s.reads;
      faults = s.faults;
    } };

    ghost invariant = { λ s. (s.at ≤ length s.bytes) × (0 < s.piece) };
}

impl MemSource {
    /// A source of these bytes that gives as many a read as the buffer takes, and never fails.
    pub fn new(alloc: Global, bytes: Bytes) -> Self
        ensures { result ≡ source_of bytes }
    {
        MemSource {
            bytes,
            at: 0,
            piece: usize::MAX,
            failing: Items::new(alloc),
            reads: 0,
            faults: 0,
        }
    }

    /// The same of a copy of these bytes.
    pub fn from_slice(alloc: Global, bytes: &[u8]) -> Result<Self, Memory>
        ensures { IfOk result (λ source. source ≡ source_of bytes.now) }
    {
        Ok(MemSource::new(alloc, Bytes::from_slice(alloc, bytes)?))
    }

    /// From now on a read gives at most so many bytes.
    pub fn set_piece(&mut self, piece: usize)
        requires { 0 < piece }
        ensures { self.new ≡ record self.old { piece = piece } }
    {
        self.piece = piece;
    }

    /// Lets the read of this number fail, counted from 1 over all reads of the source.
    pub fn fail_read(&mut self, read: u64) -> Result<(), Memory>
        ensures ok { OnOk result (self.new ≡ with_failing read self.old) }
        ensures err { OnErr result (self.new ≡ self.old) }
    {
        self.failing.push(read)?;
        Ok(())
    }

    /// The bytes that reads gave so far.
    pub fn given(&self) -> &[u8]
        ensures { result.now ≡ self.now.flow.given }
    {
        &self.bytes.as_slice()[..self.at]
    }

    /// The bytes that are left.
    pub fn left(&self) -> &[u8]
        ensures { result.now ≡ self.now.flow.left }
    {
        &self.bytes.as_slice()[self.at..]
    }

    /// How many reads there were, failed ones too.
    pub fn read_count(&self) -> u64
        ensures { result ≡ self.now.reads }
    {
        self.reads
    }

    /// How many reads failed.
    pub fn fault_count(&self) -> u64
        ensures { result ≡ self.now.faults }
    {
        self.faults
    }
}

impl Source for MemSource {
    ghost incoming = { incoming_of };

    fn read(&mut self, buf: &mut [u8]) -> Result<usize, ReadFailed>
        ensures read { TakesIn buf.new result (incoming_of self.old) (incoming_of self.new) }

        // It answers and leaves what it is set to.
        ensures answer { result ≡ read_answer self.old (length buf.old) }
        ensures left { self.new ≡ after_read self.old (length buf.old) }
    {
        self.reads = next_count(self.reads);
        if self.failing.as_slice().contains(&self.reads) {
            self.faults = next_count(self.faults);
            return Err(ReadFailed);
        }
        let (_, left) = self.bytes.as_slice().split_at(self.at);
        let count = copy_front(buf, left, self.piece);
        self.at += count;
        Ok(count)
    }
}

// Puts the first bytes at the front of the buffer, as many as fit and at most `most`, and says how
// many.
pub(crate) fn copy_front(buffer: &mut [u8], bytes: &[u8], most: usize) -> usize
    ensures count { result ≡ min (min (length bytes.now) (length buffer.old)) most }
    ensures front { take result buffer.new ≡ take result bytes.now }
{
    let count = bytes.len().min(buffer.len()).min(most);
    buffer[..count].copy_from_slice(&bytes[..count]);
    count
}
