//! What an application's reply to a call means: the run's output, operations, or a failure with its
//! error and when to try again. Stands on `json_text` for bodies and on `jiff` and `httpdate` for dates,
//! and promises the outcome of each reply as a function of its bytes.
#![tactic(auto)]

mod after;
mod condition;
mod delays;
mod members;
mod op_members;
mod op_word;
mod operation;
mod ops;
mod outcome;
mod part;
mod times;

pub use delays::delay;
pub use outcome::read_reply;
