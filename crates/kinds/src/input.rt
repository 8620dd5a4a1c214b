// The inputs of the machine.
ghost use Rattle.std.specs.Prelude.{◌≡◌};
ghost use Rattle.kinds.specs.Inputs.{reading};

use crate::{App, EventIn, ReplyIn};
use lists::Items;

/// One atomic step of the machine, with the clock reading that it was taken at, in milliseconds
/// since 1970.
#[derive(Drop)]
pub enum Input {
    /// The events of one request, at least one, in order.
    Events { at: u64, events: Items<EventIn> },
    /// The functions of an application, in place of those that it had.
    Register { at: u64, app: App },
    /// What an application answered to an open call.
    Reply { at: u64, call: u64, reply: ReplyIn },
    /// A call that couldn't be made, or whose answer never came.
    CallFailed { at: u64, call: u64 },
    /// Nothing but that time goes on.
    Tick { at: u64 },
    /// A run is to end.
    Cancel { at: u64, run: u64 },
    /// The server was stopped and begins again: no call is open any more.
    Reopened { at: u64 },
}

impl Input {
    /// The clock reading.
    pub fn at(&self) -> u64
        ensures { result ≡ reading self.now }
    {
        match self {
            Input::Events { at, .. }
            | Input::Register { at, .. }
            | Input::Reply { at, .. }
            | Input::CallFailed { at, .. }
            | Input::Tick { at }
            | Input::Cancel { at, .. }
            | Input::Reopened { at } => *at,
        }
    }
}
