// How a program ends.
ghost use Rattle.std.specs.Prelude.{◌≡◌};
ghost use Rattle.top.specs.Outcome.{number_of, status_of};

use replay_core::ReplayEnd;

/// How a run of a program ended.
#[derive(Clone, Copy, Debug, PartialEq, Eq)]
pub enum Status {
    /// The script was run to its end.
    Done,
    /// The words aren't the program's.
    Usage,
    /// No memory was to be had.
    Memory,
    /// This line of the script, counted from 1, is outside the grammar.
    Script { line: u64 },
    /// The source failed.
    ReadFault,
    /// The sink failed.
    WriteFault,
    /// A count has reached 2^61, and no further input is taken.
    NumbersSpent,
}

impl Status {
    /// The exit status of the process.
    pub fn number(&self) -> u8
        ensures { result ≡ number_of self.now }
    {
        match self {
            Status::Done => 0,
            Status::Usage => 2,
            Status::Memory => 4,
            Status::Script { .. } => 6,
            Status::ReadFault => 7,
            Status::WriteFault => 8,
            Status::NumbersSpent => 11,
        }
    }
}

/// The status of a script's end.
pub fn status_of(end: ReplayEnd) -> Status
    ensures { result ≡ status_of end }
{
    match end {
        ReplayEnd::Done => Status::Done,
        ReplayEnd::Script { line } => Status::Script { line },
        ReplayEnd::ReadFault => Status::ReadFault,
        ReplayEnd::WriteFault => Status::WriteFault,
        ReplayEnd::NumbersSpent => Status::NumbersSpent,
        ReplayEnd::Memory => Status::Memory,
    }
}
