// Standard input and output as a source and a sink.
use rig::{ReadFailed, Sink, Source, WriteFailed, next_count};
use std::io::{Read, Write};

/// Standard input, or another reader. It tells nothing of its bytes, and counts each failed read.
#[derive(Drop)]
pub struct HostSource<R: Read> {
    reader: R,
    faults: u64,
}

impl<R: Read> HostSource<R> {
    /// A source that has read nothing yet.
    pub fn new(reader: R) -> Self {
        HostSource { reader, faults: 0 }
    }
}

impl<R: Read> Source for HostSource<R> {
    ghost use Rattle.std.specs.Prelude.{None};

    ghost incoming = { λ s. record { flow = None; faults = s.faults } };

    fn read(&mut self, buf: &mut [u8]) -> Result<usize, ReadFailed> {
        match self.reader.read(buf) {
            Ok(count) => Ok(count),
            Err(_) => {
                self.faults = next_count(self.faults);
                Err(ReadFailed)
            }
        }
    }
}

/// Standard output, or another writer. It tells nothing of its bytes, and counts each failed write.
#[derive(Drop)]
pub struct HostSink<W: Write> {
    writer: W,
    faults: u64,
}

impl<W: Write> HostSink<W> {
    /// A sink that has written nothing yet.
    pub fn new(writer: W) -> Self {
        HostSink { writer, faults: 0 }
    }
}

impl<W: Write> Sink for HostSink<W> {
    ghost use Rattle.std.specs.Prelude.{None};

    ghost outgoing = { λ s. record { written = None; faults = s.faults } };

    fn write(&mut self, bytes: &[u8]) -> Result<(), WriteFailed> {
        match self.writer.write_all(bytes) {
            Ok(()) => Ok(()),
            Err(_) => {
                self.faults = next_count(self.faults);
                Err(WriteFailed)
            }
        }
    }
}
