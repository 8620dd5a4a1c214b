//! Plain data that every layer speaks: events, functions, cells, entries of the stores, replies, inputs
//! and answers. Stands on `lists` and `expr`; records of it equal the values of definitions.
#![tactic(auto)]

mod answer;
mod cell;
mod event;
mod function;
mod input;
mod limits;
mod matcher;
mod out;
mod own_error;
mod refusal;
mod reply;
mod seen;
mod shared;
mod step_hash;
mod steps;
mod store;
mod window;

pub use answer::{error_answer, function_error_answer, ids_answer};
pub use cell::{Cell, CellLimit, CellLimits, IssueEntry, StartEntry};
pub use event::{Event, EventIn};
pub use function::{App, Batch, CancelEntry, Debounce, Function, Limit, Scope, Throttle, Trigger};
pub use input::Input;
pub use limits::Limits;
use lists::Items;
pub use matcher::{Matcher, PathMatcher};
pub use out::Out;
pub use own_error::error_object;
pub use refusal::Refusal;
pub use reply::{After, Op, Outcome, ReplyIn, Time};
pub use seen::SeenEntry;
pub use shared::{Shared, SharedItems};
pub use step_hash::StepHash;
pub use steps::Steps;
pub use store::{Bucket, Due, Fired, Item, Parent, Pending, Rule, RunStatus, StepEntry, Wait};
pub use window::{Offered, Window, WindowRule};

/// A list of numbers.
pub type Numbers = Items<u64>;
