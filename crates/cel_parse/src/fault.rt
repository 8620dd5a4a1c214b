// Why a text is no expression, and where.
use lists::Memory;
use std::alloc::{AllocError, AllocFailed};
use std::fmt;

/// Why a text is no expression. Places count bytes from 0.
#[derive(Clone, Copy, Debug, PartialEq, Eq)]
pub enum ParseFault {
    /// The text has more than 1,024 bytes.
    TooLong,
    /// The token with which no expression goes on, the name of a function or a method that isn't called so,
    /// or the length where the text ends early.
    Syntax { at: u64 },
    /// The token that opens one more than 32.
    TooDeep { at: u64 },
    /// No memory was to be had.
    Memory,
}

impl fmt::Display for ParseFault {
    fn fmt<W: fmt::Write>(&self, f: &mut fmt::Formatter<W>) -> fmt::Result {
        match self {
            ParseFault::TooLong => f.write_str("an expression of more than 1,024 bytes"),
            ParseFault::Syntax { at } => write!(f, "no expression goes on so at byte {at}"),
            ParseFault::TooDeep { at } => write!(f, "more than 32 open at byte {at}"),
            ParseFault::Memory => f.write_str("out of memory"),
        }
    }
}

impl From<Memory> for ParseFault {
    ghost use Rattle.cel_parse.specs.declared.fault.ParseFault.TheVariants as fault;
    ghost use Rattle.std.specs.Prelude.{◌≡◌};

    ghost from_gives = { λ _ e. e ≡ fault.Memory };

    fn from(_error: Memory) -> Self {
        ParseFault::Memory
    }
}
