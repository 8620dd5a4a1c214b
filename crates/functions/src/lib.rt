//! The functions of all applications that events start runs of, each with its version. Stands on `kinds`, and
//! promises what a registration makes of them.
#![tactic(auto)]

mod entry;
mod functions;

pub use entry::FunctionEntry;
pub use functions::{Functions, Registered};
