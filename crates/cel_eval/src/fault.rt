// Why an expression has no value.
use lists::Memory;
use std::alloc::{AllocError, AllocFailed};
use std::fmt;

/// Why an expression has no value.
#[derive(Clone, Copy, Debug, PartialEq, Eq)]
pub enum EvalFault {
    /// An object has no such member, a list no such item, or there is no fresh event.
    NoField,
    /// A value of a kind that the operation doesn't take.
    BadType,
    /// A number that isn't a multiple of 10^-18 below 10^20, or a text over 65,536 bytes.
    Range,
    /// A division by zero.
    ZeroDivisor,
    /// No memory was to be had.
    Memory,
}

impl From<Memory> for EvalFault {
    ghost use Rattle.std.specs.Prelude.{◌≡◌};
    ghost use Rattle.cel_eval.specs.declared.fault.EvalFault.TheVariants as fault;

    ghost from_gives = { λ _ e. e ≡ fault.Memory };

    fn from(_error: Memory) -> Self {
        EvalFault::Memory
    }
}

impl From<AllocError> for EvalFault {
    ghost use Rattle.std.specs.Prelude.{◌≡◌};
    ghost use Rattle.cel_eval.specs.declared.fault.EvalFault.TheVariants as fault;

    ghost from_gives = { λ _ e. e ≡ fault.Memory };

    fn from(_error: AllocError) -> Self {
        EvalFault::Memory
    }
}

impl<T: Drop> From<AllocFailed<T>> for EvalFault {
    ghost use Rattle.std.specs.Prelude.{◌≡◌};
    ghost use Rattle.cel_eval.specs.declared.fault.EvalFault.TheVariants as fault;

    ghost from_gives = { λ _ e. e ≡ fault.Memory };

    fn from(_error: AllocFailed<T>) -> Self {
        EvalFault::Memory
    }
}

impl fmt::Display for EvalFault {
    fn fmt<W: fmt::Write>(&self, f: &mut fmt::Formatter<W>) -> fmt::Result {
        f.write_str(match self {
            EvalFault::NoField => "no such field",
            EvalFault::BadType => "a value of another kind is asked",
            EvalFault::Range => "a number or a text out of range",
            EvalFault::ZeroDivisor => "division by zero",
            EvalFault::Memory => "out of memory",
        })
    }
}
