// What is wrong with one member.
ghost use Rattle.std.specs.Prelude.{◌≡◌};
ghost use Rattle.registry.specs.Expressions.{bad_expression};
ghost use Rattle.registry.specs.Faults.{blame, blamed};

use crate::{Member, RegisterFault};
use cel_parse::ParseFault;
use lists::Memory;

/// What is wrong with a member of a function, without the function's index and the member's name.
#[derive(Clone, Copy, Debug, PartialEq, Eq)]
pub(crate) enum Flaw {
    Function,
    Trigger,
    Url,
    HttpsUrl,
    Limit,
    TooManyLimits,
    Period,
    Expression { at: u64 },
    BatchWith,
    Retries,
    CancelName,
    Memory,
}

impl From<Memory> for Flaw {
    ghost use Rattle.std.specs.Prelude.{◌≡◌};
    ghost use Rattle.registry.specs.declared.flaw.Flaw.TheVariants as flaw;

    ghost from_gives = { λ _ e. e ≡ flaw.Memory };

    fn from(_error: Memory) -> Self {
        Flaw::Memory
    }
}

impl From<ParseFault> for Flaw {
    ghost use Rattle.std.specs.Prelude.{◌≡◌};
    ghost use Rattle.registry.specs.Expressions.{bad_expression};

    ghost from_gives = { λ f e. e ≡ bad_expression f };

    fn from(fault: ParseFault) -> Self {
        match fault {
            ParseFault::TooLong => Flaw::Expression { at: 0 },
            ParseFault::Syntax { at } | ParseFault::TooDeep { at } => Flaw::Expression { at },
            ParseFault::Memory => Flaw::Memory,
        }
    }
}

impl Flaw {
    /// The fault that this is in a member of the function of this index.
    pub(crate) fn of(self, function: u64, member: Member) -> RegisterFault
        ensures { result ≡ blamed function member self }
    {
        match self {
            Flaw::Function => RegisterFault::BadFunction { function, member },
            Flaw::Trigger => RegisterFault::BadTrigger { function, member },
            Flaw::Url => RegisterFault::BadUrl { function, member },
            Flaw::HttpsUrl => RegisterFault::HttpsUrl { function, member },
            Flaw::Limit => RegisterFault::BadLimit { function, member },
            Flaw::TooManyLimits => RegisterFault::TooManyLimits { function, member },
            Flaw::Period => RegisterFault::BadPeriod { function, member },
            Flaw::Expression { at } => RegisterFault::BadExpression {
                function,
                member,
                at,
            },
            Flaw::BatchWith => RegisterFault::BatchWith { function, member },
            Flaw::Retries => RegisterFault::BadRetries { function, member },
            Flaw::CancelName => RegisterFault::CancelName { function, member },
            Flaw::Memory => RegisterFault::Memory,
        }
    }
}

/// What was read, or its fault in this member of the function of this index.
pub(crate) fn blame<T: Drop>(
    function: u64,
    member: Member,
    read: Result<T, Flaw>,
) -> Result<T, RegisterFault>
    ensures { result ≡ blame function member read }
{
    match read {
        Ok(value) => Ok(value),
        Err(flaw) => Err(flaw.of(function, member)),
    }
}
