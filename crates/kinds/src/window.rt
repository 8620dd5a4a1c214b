// Windows of events: debounces and batches.
use crate::{Batch, Debounce, Numbers};
use lists::Bytes;

/// How a function gathers events before its run starts.
#[derive(Drop)]
pub enum WindowRule {
    /// They wait until none has come for a while.
    Debounce(Debounce),
    /// They wait until they are enough.
    Batch(Batch),
}

/// Events of one function version and one value of the rule's key, which wait for their run. Moments are
/// milliseconds since 1970.
#[derive(Drop)]
pub enum Window {
    /// The run starts with the last event.
    Debounce {
        number: u64,
        version: u64,
        value: Bytes,
        event: u64,
        /// When the first event came.
        first: u64,
        due: u64,
    },
    /// The run starts with all events, in order.
    Batch {
        number: u64,
        version: u64,
        value: Bytes,
        events: Numbers,
        due: u64,
    },
}

/// What became of an event that was offered to a window.
#[derive(Drop)]
pub enum Offered {
    /// It waits in the window of this number, which is due at that moment.
    Waits { number: u64, due: u64 },
    /// It made the window full. A run starts with these events, and the window is closed.
    Full { number: u64, events: Numbers },
}
