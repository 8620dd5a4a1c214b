//! What is awaited: sleeps, waits for events, invocations, cancel rules and windows, each list with its dues. Stands on
//! the stores below; contracts see each list in order of number.
#![tactic(auto)]

mod dues;
mod entries;
mod invocations;
mod names;
mod placed;
mod rules;
mod sleeps;
mod timed;
mod waits;
mod windows;

pub use entries::{Invocation, Sleep, WaitStep};
pub use invocations::Invocations;
pub use placed::Placed;
pub use rules::Rules;
pub use sleeps::Sleeps;
pub use timed::{Timed, TimedList};
pub use waits::Waits;
pub use windows::WindowSet;
