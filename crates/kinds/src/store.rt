// The entries of the machine's stores.
use crate::{Cell, CellLimits, Numbers, Shared, StepHash};
use expr::Expr;
use lists::{Bytes, Items};

/// Something that is due at a moment, in milliseconds since 1970. The run is 0 for a window and for the
/// limit of a call.
#[derive(Clone, Copy, Debug, PartialEq, Eq)]
pub struct Due {
    /// When, in milliseconds since 1970.
    pub due: u64,
    /// The number of what is due.
    pub number: u64,
    /// The run that it is of.
    pub run: u64,
}

/// Where an event must have a value for a condition to be true of it: the member at a path from the
/// event, one name or more, and the value there as a cell has it.
#[derive(Clone, PartialEq, Eq, PartialOrd, Ord, Drop)]
pub struct Bucket {
    /// The names of members, from the outermost in.
    pub path: Items<Bytes>,
    /// As a cell has it.
    pub value: Bytes,
}

/// A run that waits for an event of this name.
#[derive(Drop)]
pub struct Wait {
    /// The wait's number.
    pub number: u64,
    /// The run that waits.
    pub run: u64,
    /// The number of the run's first event.
    pub first: u64,
    /// The event's name.
    pub name: Bytes,
    /// Over the run's first event and the one that is waited for.
    pub cond: Option<Expr>,
    /// When the wait ends, in milliseconds since 1970.
    pub due: u64,
    /// Where the condition looks for its event, if it says so.
    pub bucket: Option<Bucket>,
}

/// An event of this name cancels the run.
#[derive(Drop)]
pub struct Rule {
    /// The rule's number.
    pub number: u64,
    /// The run that is cancelled.
    pub run: u64,
    /// The number of the run's first event.
    pub first: u64,
    /// The event's name.
    pub name: Bytes,
    /// Over the run's first event and the one that cancels.
    pub cond: Option<Expr>,
    /// When the rule ends, in milliseconds since 1970.
    pub due: Option<u64>,
    /// Where the condition looks for its event, if it says so.
    pub bucket: Option<Bucket>,
}

/// A call that is to be made for a run.
#[derive(Drop)]
pub struct Item {
    /// The item's number.
    pub number: u64,
    /// The run that it is of.
    pub run: u64,
    /// `step`, to find out what comes next, or the name of a step.
    pub target: Bytes,
    /// From 0 for the first.
    pub attempt: u8,
    /// When it may be issued, in milliseconds since 1970.
    pub due: u64,
    /// The lesser comes first.
    pub score: i64,
    /// The cells that the call counts in.
    pub cells: CellLimits,
    /// The throttle's cell, where the run hasn't started and has one.
    pub start: Option<Shared<Cell>>,
}

/// The step of a run that invoked another run, and waits for its end.
#[derive(Clone, Copy, Debug, PartialEq, Eq)]
pub struct Parent {
    /// The run that waits.
    pub run: u64,
    /// The step's name.
    pub hash: StepHash,
}

/// Where a run stands.
#[derive(Clone, Copy, Debug, PartialEq, Eq)]
pub enum RunStatus {
    /// No call of it was made yet.
    Queued,
    /// A call of it was made, and it has not ended.
    Running,
    /// It ended with an output.
    Completed,
    /// It ended with an error.
    Failed,
    /// It was ended from outside.
    Cancelled,
}

/// The events of a window that is over, for a run of this function version.
#[derive(Drop)]
pub struct Fired {
    /// The function version that the run is of.
    pub version: u64,
    /// The numbers of its events, in order.
    pub events: Numbers,
}

/// What a step that isn't recorded yet waits for.
#[derive(Clone, Copy, Debug, PartialEq, Eq)]
pub enum Pending {
    /// A moment.
    Sleep,
    /// An event.
    Wait,
    /// The end of another run.
    Invocation,
}

/// A step of a run that is recorded: its name, and its result as it goes on to later calls.
#[derive(Drop)]
pub struct StepEntry {
    /// The step's name.
    pub hash: StepHash,
    /// One JSON text.
    pub result: Bytes,
}
