//! The machine: takes one input at a time and says what the documented machine says. Stands on
//! `run_model`, whose state is what contracts see of a `Machine`, and on its parts.
#![tactic(auto)]

mod advance;
mod counts;
mod ends;
mod events;
mod invocations;
mod loose;
mod machine;
mod making;
mod numbers;
mod offers;
mod operations;
mod parts;
mod recording;
mod replies;
mod requests;
mod results;
mod settle;
mod step;
mod tidy;
mod versions;
mod views;

pub use machine::Machine;
pub(crate) use parts::Parts;
pub use views::{OpenCall, RunView};
