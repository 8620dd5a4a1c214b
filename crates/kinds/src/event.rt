// Events, as they come and as they are matched.
use lists::Bytes;

/// An event as a request gives it. Each part but the name and the id is the member's own text in the
/// source, byte for byte; the member `data` is `content`.
#[derive(Drop)]
pub struct EventIn {
    /// Unescaped, and never empty.
    pub name: Bytes,
    /// The text of an object.
    pub content: Bytes,
    /// The id that tells a repeated event. It is never empty.
    pub id: Option<Bytes>,
    /// The text of a number.
    pub ts: Option<Bytes>,
    /// The text of any value.
    pub user: Option<Bytes>,
    /// The text of any value.
    pub v: Option<Bytes>,
}

/// An event that was accepted: its number, from 1, its name, and the JSON text that it goes on as.
#[derive(Drop)]
pub struct Event {
    /// From 1, in the order of acceptance.
    pub number: u64,
    /// Unescaped.
    pub name: Bytes,
    /// One JSON object.
    pub text: Bytes,
}
