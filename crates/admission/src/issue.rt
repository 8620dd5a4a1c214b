// What is known of an open call, and when its limit is reached.
use kinds::Item;

/// An open call, with the item that it was made for. The item has no start, since none is needed to
/// make it again.
#[derive(Drop)]
pub struct Issue {
    /// The call's number.
    pub call: u64,
    /// What the call was made for.
    pub item: Item,
    /// The number of its limit.
    pub limit: u64,
    /// When its limit is reached, in milliseconds since 1970.
    pub due: u64,
}

/// When the limit of an open call is reached, in milliseconds since 1970, with the numbers of the limit
/// and the call.
#[derive(Clone, Copy, Debug, PartialEq, Eq)]
pub struct CallLimit {
    /// In milliseconds since 1970.
    pub due: u64,
    /// The limit's number.
    pub number: u64,
    /// The call's number.
    pub call: u64,
}
