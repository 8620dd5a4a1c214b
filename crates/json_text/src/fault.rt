// Why bytes are no JSON text, and where.
use lists::Memory;
use std::alloc::{AllocError, AllocFailed};
use std::fmt;

/// Why bytes are no JSON text. Places count bytes from 0.
#[derive(Clone, Copy, Debug, PartialEq, Eq)]
pub enum JsonFault {
    /// The first place where no JSON text goes on so (RFC 8259), or the length where the text ends early.
    NotJson { at: u64 },
    /// The place of the bracket that is the 65th open one.
    TooDeep { at: u64 },
    /// No memory was to be had.
    Memory,
}

impl From<Memory> for JsonFault {
    ghost use Rattle.json_text.specs.declared.fault.JsonFault.TheVariants as fault;
    ghost use Rattle.std.specs.Prelude.{◌≡◌};

    ghost from_gives = { λ _ e. e ≡ fault.Memory };

    fn from(_error: Memory) -> Self {
        JsonFault::Memory
    }
}

impl From<AllocError> for JsonFault {
    ghost use Rattle.json_text.specs.declared.fault.JsonFault.TheVariants as fault;
    ghost use Rattle.std.specs.Prelude.{◌≡◌};

    ghost from_gives = { λ _ e. e ≡ fault.Memory };

    fn from(_error: AllocError) -> Self {
        JsonFault::Memory
    }
}

impl<T: Drop> From<AllocFailed<T>> for JsonFault {
    ghost use Rattle.json_text.specs.declared.fault.JsonFault.TheVariants as fault;
    ghost use Rattle.std.specs.Prelude.{◌≡◌};

    ghost from_gives = { λ _ e. e ≡ fault.Memory };

    fn from(_error: AllocFailed<T>) -> Self {
        JsonFault::Memory
    }
}

impl fmt::Display for JsonFault {
    fn fmt<W: fmt::Write>(&self, f: &mut fmt::Formatter<W>) -> fmt::Result {
        match self {
            JsonFault::NotJson { at } => write!(f, "not JSON at byte {at}"),
            JsonFault::TooDeep { at } => write!(f, "a 65th open bracket at byte {at}"),
            JsonFault::Memory => f.write_str("out of memory"),
        }
    }
}
