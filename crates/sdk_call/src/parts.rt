// What a call is made of.
use kinds::{Function, StepEntry};
use lists::Bytes;

/// What a call to an application is made of.
#[derive(Clone, Copy)]
pub struct CallParts<'a> {
    /// The function that is called.
    pub function: &'a Function,
    /// `step`, to find out what comes next, or the name of a planned step.
    pub target: &'a [u8],
    /// The id of the run.
    pub run_id: [u8; 36],
    /// From 0 for the first.
    pub attempt: u8,
    /// Whether a step of the run was planned.
    pub planned: bool,
    /// The JSON texts of the run's events, in order. The first stands for itself too, or nothing where there is none.
    pub events: &'a [&'a [u8]],
    /// The recorded steps, in the order of recording.
    pub steps: &'a [StepEntry],
}

/// What goes into the request line and behind the head of a call.
#[derive(Drop)]
pub struct CallText {
    /// The path with its query.
    pub path: Bytes,
    /// One JSON object.
    pub body: Bytes,
}
