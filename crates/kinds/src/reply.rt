// Replies of applications, and what they mean.
use crate::StepHash;
use expr::Expr;
use lists::{Bytes, Items};

/// What an application answered to a call, as far as the server looks at it.
#[derive(Drop)]
pub struct ReplyIn {
    /// From 0 to 999.
    pub status: u16,
    /// The field `X-Inngest-No-Retry`, where it is `true` or `false`.
    pub no_retry: Option<bool>,
    /// The field `Retry-After`, as it stands.
    pub retry: Option<Bytes>,
    /// As it came, byte for byte.
    pub body: Bytes,
}

/// When something is due: so many milliseconds from now, or at a moment.
#[derive(Clone, Copy, Debug, PartialEq, Eq)]
pub enum Time {
    /// So many milliseconds from now.
    Span(u64),
    /// A moment, in milliseconds since 1970.
    At(u64),
}

/// What an application asks for. Texts but names are slices of the reply.
#[derive(Drop)]
pub enum Op {
    /// A step ran, with this result.
    StepRun {
        hash: StepHash,
        value: Bytes,
    },
    /// A step failed, with this error.
    StepError {
        hash: StepHash,
        error: Bytes,
    },
    /// A step is to run by a call of its own.
    StepPlanned {
        hash: StepHash,
    },
    /// A step sleeps.
    Sleep {
        hash: StepHash,
        time: Time,
    },
    /// A step waits for an event of this name for which the condition is true, or absent.
    WaitForEvent {
        hash: StepHash,
        event: Bytes,
        timeout: Time,
        cond: Option<Expr>,
    },
    /// A step starts a run of the function with this id, and waits for its end.
    InvokeFunction {
        hash: StepHash,
        function: Bytes,
        payload: Option<Bytes>,
        timeout: Option<Time>,
    },
}

/// When a call is made again: by the table of delays, after so many milliseconds, or at a moment.
#[derive(Clone, Copy, Debug, PartialEq, Eq)]
pub enum After {
    /// By the table of delays.
    None,
    /// After so many milliseconds.
    Millis(u64),
    /// At a moment, in milliseconds since 1970.
    At(u64),
}

/// What a reply means.
#[derive(Drop)]
pub enum Outcome {
    /// The run is over, with this output.
    Ended {
        output: Bytes,
    },
    /// The run goes on with these operations.
    Ops {
        ops: Items<Op>,
        no_retry: bool,
        after: After,
    },
    /// The call failed, and is made again where attempts are left.
    Retry {
        after: After,
        error: Bytes,
    },
    /// The call failed for good.
    NoRetry {
        error: Bytes,
    },
    /// The reply can't be read, from this place of its body on.
    Unreadable {
        at: u64,
    },
}
