// Where bytes go out, as a trait.
ghost use Rattle.rig.specs.Written.{Outgoing, PutsOut};

use std::fmt;

/// A write failed, and the sink counted the fault.
#[derive(Clone, Copy, Debug, PartialEq, Eq)]
pub struct WriteFailed;

impl fmt::Display for WriteFailed {
    fn fmt<W: fmt::Write>(&self, f: &mut fmt::Formatter<W>) -> fmt::Result {
        f.write_str("a write failed")
    }
}

/// Bytes that go out.
pub trait Sink {
    /// The bytes written so far, where it tells, and how often a write has failed, at most 2^64 - 1
    /// times. One that tells goes on telling.
    ghost outgoing: { Self → Outgoing };

    /// Writes all of the bytes. A write that fails may have written a prefix.
    fn write(&mut self, bytes: &[u8]) -> Result<(), WriteFailed>
        ensures written { PutsOut bytes.now result (outgoing self.old) (outgoing self.new) };
}
