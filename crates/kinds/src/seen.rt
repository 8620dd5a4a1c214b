// A remembered event id.
use lists::Bytes;

/// An event id that was accepted: the event's number, and when it was accepted, in milliseconds
/// since 1970.
#[derive(Drop)]
pub struct SeenEntry {
    /// Never empty.
    pub id: Bytes,
    /// The event's number.
    pub number: u64,
    /// When it was accepted.
    pub moment: u64,
}
