// How the run of a script ends, and why it breaks off: at a line, and over its whole way.
ghost use Rattle.std.specs.Prelude.{◌≡◌};
ghost use Rattle.replay_core.specs.Ends.{end_of, unwritten};

use lists::Memory;
use rig::{ReadFailed, WriteFailed};
use std::fmt;

/// How the run of a script ended.
#[derive(Clone, Copy, Debug, PartialEq, Eq)]
pub enum ReplayEnd {
    /// Every line was run, and the end line is printed.
    Done,
    /// This line, counted from 1, is outside the grammar. All lines before it were run.
    Script { line: u64 },
    /// The source failed, and counted it.
    ReadFault,
    /// The sink failed, and counted it.
    WriteFault,
    /// The machine takes no further input.
    NumbersSpent,
    /// No memory was to be had.
    Memory,
}

/// Why a run breaks off at a line.
#[derive(Clone, Copy, Debug, PartialEq, Eq)]
pub enum LineFault {
    /// This line, counted from 1, is outside the grammar.
    Outside { line: u64 },
    /// The machine takes no further input.
    Spent,
    /// No memory was to be had.
    Memory,
}

/// Why a run breaks off.
#[derive(Clone, Copy, Debug, PartialEq, Eq)]
pub enum RunFault {
    /// The source failed, and counted it.
    Source,
    /// The sink failed, and counted it.
    Sink,
    /// It broke off at a line, or for want of memory.
    Line(LineFault),
}

impl fmt::Display for ReplayEnd {
    fn fmt<W: fmt::Write>(&self, f: &mut fmt::Formatter<W>) -> fmt::Result {
        match self {
            ReplayEnd::Done => f.write_str("every line was run"),
            ReplayEnd::Script { line } => write!(f, "line {line} is outside the grammar"),
            ReplayEnd::ReadFault => f.write_str("the source failed"),
            ReplayEnd::WriteFault => f.write_str("the sink failed"),
            ReplayEnd::NumbersSpent => f.write_str("the machine takes no further input"),
            ReplayEnd::Memory => f.write_str("out of memory"),
        }
    }
}

impl fmt::Display for LineFault {
    fn fmt<W: fmt::Write>(&self, f: &mut fmt::Formatter<W>) -> fmt::Result {
        match self {
            LineFault::Outside { line } => write!(f, "line {line} is outside the grammar"),
            LineFault::Spent => f.write_str("the machine takes no further input"),
            LineFault::Memory => f.write_str("out of memory"),
        }
    }
}

impl fmt::Display for RunFault {
    fn fmt<W: fmt::Write>(&self, f: &mut fmt::Formatter<W>) -> fmt::Result {
        match self {
            RunFault::Source => f.write_str("the source failed"),
            RunFault::Sink => f.write_str("the sink failed"),
            RunFault::Line(fault) => write!(f, "{fault}"),
        }
    }
}

/// How a run ended that went through or broke off.
pub fn end_of(ran: Result<(), RunFault>) -> ReplayEnd
    ensures { result ≡ end_of ran }
{
    match ran {
        Ok(()) => ReplayEnd::Done,
        Err(RunFault::Source) => ReplayEnd::ReadFault,
        Err(RunFault::Sink) => ReplayEnd::WriteFault,
        Err(RunFault::Line(LineFault::Outside { line })) => ReplayEnd::Script { line },
        Err(RunFault::Line(LineFault::Spent)) => ReplayEnd::NumbersSpent,
        Err(RunFault::Line(LineFault::Memory)) => ReplayEnd::Memory,
    }
}

/// The end of a run whose last write fails. A run that found no memory stays one.
pub fn unwritten(end: ReplayEnd) -> ReplayEnd
    ensures { result ≡ unwritten end }
{
    match end {
        ReplayEnd::Memory => ReplayEnd::Memory,
        _ => ReplayEnd::WriteFault,
    }
}

impl From<Memory> for LineFault {
    ghost use Rattle.std.specs.Prelude.{◌≡◌};
    ghost use Rattle.replay_core.specs.declared.end.LineFault.TheVariants as line;

    ghost from_gives = { λ _ e. e ≡ line.Memory };

    fn from(_error: Memory) -> Self {
        LineFault::Memory
    }
}

impl From<Memory> for RunFault {
    ghost use Rattle.std.specs.Prelude.{◌≡◌};
    ghost use Rattle.replay_core.specs.declared.end.LineFault.TheVariants as line;
    ghost use Rattle.replay_core.specs.declared.end.RunFault.TheVariants as run;

    ghost from_gives = { λ _ e. e ≡ run.Line line.Memory };

    fn from(_error: Memory) -> Self {
        RunFault::Line(LineFault::Memory)
    }
}

impl From<LineFault> for RunFault {
    ghost use Rattle.std.specs.Prelude.{◌≡◌};
    ghost use Rattle.replay_core.specs.declared.end.RunFault.TheVariants as run;

    ghost from_gives = { λ fault e. e ≡ run.Line fault };

    fn from(fault: LineFault) -> Self {
        RunFault::Line(fault)
    }
}

impl From<ReadFailed> for RunFault {
    ghost use Rattle.std.specs.Prelude.{◌≡◌};
    ghost use Rattle.replay_core.specs.declared.end.RunFault.TheVariants as run;

    ghost from_gives = { λ _ e. e ≡ run.Source };

    fn from(_error: ReadFailed) -> Self {
        RunFault::Source
    }
}

impl From<WriteFailed> for RunFault {
    ghost use Rattle.std.specs.Prelude.{◌≡◌};
    ghost use Rattle.replay_core.specs.declared.end.RunFault.TheVariants as run;

    ghost from_gives = { λ _ e. e ≡ run.Sink };

    fn from(_error: WriteFailed) -> Self {
        RunFault::Sink
    }
}
