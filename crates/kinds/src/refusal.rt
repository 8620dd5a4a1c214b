// Why the machine turns an input away.
ghost use Rattle.std.specs.Prelude.{◌≡◌, IfOk};
ghost use Rattle.kinds.specs.Refusal.{refusal_answer};

use crate::{Out, error_answer};
use lists::Memory;
use std::alloc::Global;

/// Why the machine turns an input away.
#[derive(Clone, Copy, Debug, PartialEq, Eq)]
pub enum Refusal {
    /// A count has reached 2^61, and no further input is ever taken.
    NumbersSpent { greatest: u64 },
    /// The bytes kept have reached their limit.
    KeptFull { kept: u64 },
    /// The runs that have not ended have reached their limit.
    RunsFull { live: u64 },
    /// More functions than the limit would be current.
    FunctionsFull { functions: u64 },
    /// No call of this number is open.
    UnknownCall { call: u64 },
    /// The run isn't known: it never was, or it ended before the last thousand did.
    UnknownRun { run: u64 },
    /// The run has ended.
    RunEnded { run: u64 },
}

impl Refusal {
    /// What the sender of the input is told. Spent numbers end a session, and a reply is told nothing, so
    /// the answers to these are never said.
    pub fn answer(&self, alloc: Global) -> Result<Out, Memory>
        ensures { IfOk result (λ out. out ≡ refusal_answer self.now) }
    {
        match *self {
            Refusal::NumbersSpent { greatest } => {
                error_answer(alloc, 429, b"numbers spent", Some(greatest))
            }
            Refusal::KeptFull { kept } => error_answer(alloc, 429, b"kept full", Some(kept)),
            Refusal::RunsFull { live } => error_answer(alloc, 429, b"runs full", Some(live)),
            Refusal::FunctionsFull { functions } => {
                error_answer(alloc, 429, b"functions full", Some(functions))
            }
            Refusal::UnknownCall { call } => error_answer(alloc, 404, b"unknown call", Some(call)),
            Refusal::UnknownRun { .. } => error_answer(alloc, 404, b"unknown run", None),
            Refusal::RunEnded { .. } => error_answer(alloc, 400, b"run ended", None),
        }
    }
}
