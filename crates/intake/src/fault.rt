// Why a request of events is refused.
ghost use Rattle.std.specs.Prelude.{◌≡◌, Some, IfOk};
ghost use Rattle.intake.specs.Events.{fault_answer};

use json_text::JsonFault;
use kinds::{Out, error_answer};
use lists::Memory;
use std::alloc::Global;
use std::fmt;

/// Why the body of a request of events is refused.
#[derive(Clone, Copy, Debug, PartialEq, Eq)]
pub enum IntakeFault {
    /// It is no JSON text (RFC 8259), or has more than 64 open brackets at this place, counted in bytes
    /// from 0.
    NotJson { at: u64 },
    /// It has so many events, more than 1,000.
    TooMany { count: u64 },
    /// The event of this index, counted from 0, is no object, or its `name` is no text or an empty one.
    NoName { index: u64 },
    /// The event's `data` is there, and neither null nor an object.
    DataNotObject { index: u64 },
    /// The event's own text in the body has more than 262,144 bytes.
    TooLarge { index: u64 },
    /// No memory was to be had.
    Memory,
}

impl From<Memory> for IntakeFault {
    ghost use Rattle.std.specs.Prelude.{◌≡◌};
    ghost use Rattle.intake.specs.declared.fault.IntakeFault.TheVariants as fault;

    ghost from_gives = { λ _ e. e ≡ fault.Memory };

    fn from(_error: Memory) -> Self {
        IntakeFault::Memory
    }
}

impl From<JsonFault> for IntakeFault {
    ghost use Rattle.std.specs.Prelude.{◌≡◌};
    ghost use Rattle.intake.specs.Events.{no_json};

    ghost from_gives = { λ f e. e ≡ no_json f };

    fn from(fault: JsonFault) -> Self {
        match fault {
            JsonFault::NotJson { at } | JsonFault::TooDeep { at } => IntakeFault::NotJson { at },
            JsonFault::Memory => IntakeFault::Memory,
        }
    }
}

impl IntakeFault {
    /// What the sender of the body is told. Want of memory has no answer of its own.
    pub fn answer(&self, alloc: Global) -> Result<Out, Memory>
        ensures { IfOk result (λ out. fault_answer self.now ≡ Some out) }
    {
        match *self {
            IntakeFault::NotJson { at } => error_answer(alloc, 400, b"not json", Some(at)),
            IntakeFault::TooMany { count } => {
                error_answer(alloc, 400, b"too many events", Some(count))
            }
            IntakeFault::NoName { index } => error_answer(alloc, 400, b"no name", Some(index)),
            IntakeFault::DataNotObject { index } => {
                error_answer(alloc, 400, b"data not object", Some(index))
            }
            IntakeFault::TooLarge { index } => {
                error_answer(alloc, 400, b"event too large", Some(index))
            }
            IntakeFault::Memory => Err(Memory),
        }
    }
}

impl fmt::Display for IntakeFault {
    fn fmt<W: fmt::Write>(&self, f: &mut fmt::Formatter<W>) -> fmt::Result {
        match self {
            IntakeFault::NotJson { at } => write!(f, "not JSON at byte {at}"),
            IntakeFault::TooMany { count } => write!(f, "too many events: {count}"),
            IntakeFault::NoName { index } => write!(f, "no name in event {index}"),
            IntakeFault::DataNotObject { index } => write!(
                f,
                "data not an object in event {index}"
            ),
            IntakeFault::TooLarge { index } => write!(f, "event {index} too large"),
            IntakeFault::Memory => f.write_str("out of memory"),
        }
    }
}
