// Where bytes come in, as a trait.
ghost use Rattle.rig.specs.Flow.{Incoming, TakesIn};

use std::fmt;

/// A read failed, and the source counted the fault.
#[derive(Clone, Copy, Debug, PartialEq, Eq)]
pub struct ReadFailed;

impl fmt::Display for ReadFailed {
    fn fmt<W: fmt::Write>(&self, f: &mut fmt::Formatter<W>) -> fmt::Result {
        f.write_str("a read failed")
    }
}

/// Bytes that come in.
pub trait Source {
    /// The bytes that it gave so far and those that it has left, where it tells, and how often a read
    /// has failed, at most 2^64 - 1 times. One that tells goes on telling.
    ghost incoming: { Self → Incoming };

    /// Puts the next bytes at the front of the buffer, and says how many. 0 into a buffer that isn't
    /// empty is the end.
    fn read(&mut self, buf: &mut [u8]) -> Result<usize, ReadFailed>
        ensures read { TakesIn buf.new result (incoming self.old) (incoming self.new) };
}
