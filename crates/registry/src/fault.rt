// Why a registration is refused.
ghost use Rattle.std.specs.Prelude.{◌≡◌, Some, IfOk};
ghost use Rattle.registry.specs.Answers.{fault_answer, refused_in};

use crate::Member;
use kinds::{Out, error_answer, function_error_answer};
use lists::Memory;
use std::alloc::Global;
use std::fmt;

/// Why a registration is refused: the first fault, function by function. `function` is the function's index in
/// the body, from 0, and `member` the function's own member in which the fault lies.
#[derive(Clone, Copy, Debug, PartialEq, Eq)]
pub enum RegisterFault {
    /// The body is no JSON object (RFC 8259).
    NotJson,
    /// `appName` is no text, or an empty one.
    NoAppName,
    /// `functions` is no array of at most 256.
    NoFunctions,
    /// It is no object, its id or its name can't be, or it has a member that isn't read yet.
    BadFunction {
        function: u64,
        member: Member,
    },
    /// `triggers` aren't one to ten with an event each, or one is a time.
    BadTrigger {
        function: u64,
        member: Member,
    },
    /// The application's URL isn't one that can be called.
    BadUrl {
        function: u64,
        member: Member,
    },
    /// The application's URL has the scheme `https`.
    HttpsUrl {
        function: u64,
        member: Member,
    },
    /// A number is none or out of its range, or what holds the numbers is of another kind.
    BadLimit {
        function: u64,
        member: Member,
    },
    /// There are more than two concurrency limits.
    TooManyLimits {
        function: u64,
        member: Member,
    },
    /// A period or timeout is no duration from 1 ms to 366 days.
    BadPeriod {
        function: u64,
        member: Member,
    },
    /// An expression can't be read at this byte of it, from 0.
    BadExpression {
        function: u64,
        member: Member,
        at: u64,
    },
    /// The member can't stand beside `batchEvents`.
    BatchWith {
        function: u64,
        member: Member,
    },
    /// The retries aren't a whole number from 0 to 20.
    BadRetries {
        function: u64,
        member: Member,
    },
    /// The event that cancels is no text, or is one of the server's own.
    CancelName {
        function: u64,
        member: Member,
    },
    /// No memory was to be had.
    Memory,
}

impl From<Memory> for RegisterFault {
    ghost use Rattle.std.specs.Prelude.{◌≡◌};
    ghost use Rattle.registry.specs.declared.fault.RegisterFault.TheVariants as fault;

    ghost from_gives = { λ _ e. e ≡ fault.Memory };

    fn from(_error: Memory) -> Self {
        RegisterFault::Memory
    }
}

impl RegisterFault {
    /// What the sender of the registration is told. Want of memory has no answer of its own.
    pub fn answer(&self, alloc: Global) -> Result<Out, Memory>
        ensures { IfOk result (λ out. fault_answer self.now ≡ Some out) }
    {
        match *self {
            RegisterFault::NotJson => error_answer(alloc, 400, b"not json", None),
            RegisterFault::NoAppName => error_answer(alloc, 400, b"no app name", None),
            RegisterFault::NoFunctions => error_answer(alloc, 400, b"no functions", None),
            RegisterFault::BadFunction { function, member } => {
                refused_in(alloc, b"bad function", function, member, None)
            }
            RegisterFault::BadTrigger { function, member } => {
                refused_in(alloc, b"bad trigger", function, member, None)
            }
            RegisterFault::BadUrl { function, member } => {
                refused_in(alloc, b"bad url", function, member, None)
            }
            RegisterFault::HttpsUrl { function, member } => {
                refused_in(alloc, b"https url", function, member, None)
            }
            RegisterFault::BadLimit { function, member } => {
                refused_in(alloc, b"bad limit", function, member, None)
            }
            RegisterFault::TooManyLimits { function, member } => {
                refused_in(alloc, b"too many limits", function, member, None)
            }
            RegisterFault::BadPeriod { function, member } => {
                refused_in(alloc, b"bad period", function, member, None)
            }
            RegisterFault::BadExpression {
                function,
                member,
                at,
            } => refused_in(alloc, b"bad expression", function, member, Some(at)),
            RegisterFault::BatchWith { function, member } => {
                refused_in(alloc, b"batch with", function, member, None)
            }
            RegisterFault::BadRetries { function, member } => {
                refused_in(alloc, b"bad retries", function, member, None)
            }
            RegisterFault::CancelName { function, member } => {
                refused_in(alloc, b"cancel name", function, member, None)
            }
            RegisterFault::Memory => Err(Memory),
        }
    }
}

fn refused_in(
    alloc: Global,
    word: &[u8],
    function: u64,
    member: Member,
    at: Option<u64>,
) -> Result<Out, Memory>
    ensures { IfOk result (λ out. out ≡ refused_in word.now function member at) }
{
    function_error_answer(alloc, 400, word, function, member.name().as_bytes(), at)
}

fn write_in<W: fmt::Write>(
    f: &mut fmt::Formatter<W>,
    what: &str,
    function: u64,
    member: Member,
) -> fmt::Result {
    let name = member.name();
    write!(f, "{what} in {name} of function {function}")
}

impl fmt::Display for RegisterFault {
    fn fmt<W: fmt::Write>(&self, f: &mut fmt::Formatter<W>) -> fmt::Result {
        match *self {
            RegisterFault::NotJson => f.write_str("not a JSON object"),
            RegisterFault::NoAppName => f.write_str("no app name"),
            RegisterFault::NoFunctions => f.write_str("no functions"),
            RegisterFault::BadFunction { function, member } => {
                write_in(f, "bad function", function, member)
            }
            RegisterFault::BadTrigger { function, member } => {
                write_in(f, "bad trigger", function, member)
            }
            RegisterFault::BadUrl { function, member } => write_in(f, "bad URL", function, member),
            RegisterFault::HttpsUrl { function, member } => {
                write_in(f, "https URL", function, member)
            }
            RegisterFault::BadLimit { function, member } => {
                write_in(f, "bad limit", function, member)
            }
            RegisterFault::TooManyLimits { function, member } => {
                write_in(f, "too many limits", function, member)
            }
            RegisterFault::BadPeriod { function, member } => {
                write_in(f, "bad period", function, member)
            }
            RegisterFault::BadExpression {
                function,
                member,
                at,
            } => {
                write_in(f, "bad expression", function, member)?;
                write!(f, ", at byte {at} of it")
            }
            RegisterFault::BatchWith { function, member } => {
                write_in(f, "not beside batchEvents:", function, member)
            }
            RegisterFault::BadRetries { function, member } => {
                write_in(f, "bad retries", function, member)
            }
            RegisterFault::CancelName { function, member } => {
                write_in(f, "bad event", function, member)
            }
            RegisterFault::Memory => f.write_str("out of memory"),
        }
    }
}
