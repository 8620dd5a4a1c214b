// What becomes of an event that is offered to windows.
use kinds::Numbers;

/// What became of an event that was offered to a function's windows.
#[derive(Drop)]
pub enum Placed {
    /// It opened a window, which took the number.
    Opened,
    /// It waits in a window that was open before.
    Joined,
    /// It made a window full. A run starts with these events, and the window is closed.
    Full { events: Numbers, was_open: bool },
}
