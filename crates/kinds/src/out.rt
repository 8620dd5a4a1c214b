// What a step says to the outside.
use crate::Numbers;
use lists::Bytes;

/// What a step has to say to the outside.
#[derive(Drop)]
pub enum Out {
    /// The connection of a call that has taken too long is to be closed.
    Hang {
        call: u64,
    },
    /// The answer to a request: an HTTP status and a JSON body.
    Answer {
        status: u16,
        body: Bytes,
    },
    /// A call to an application.
    Call {
        call: u64,
        /// The function's id.
        function: Bytes,
        /// `step`, to find out what comes next, or the name of a step.
        target: Bytes,
        run: u64,
        attempt: u8,
        /// How many steps of the run are recorded.
        steps: u64,
        /// The numbers of the run's events.
        events: Numbers,
        host: Bytes,
        port: u16,
        /// The path and the query.
        path: Bytes,
        /// The JSON text that is sent.
        body: Bytes,
    },
}
