//! The HTTP call to an application: its path, its body and its head. Stands on `lists` and `kinds`, and
//! promises each text byte for byte.
#![tactic(auto)]

mod body;
mod head;
mod parts;
mod query;
mod room;

pub use body::call_text;
pub use head::head_text;
pub use parts::{CallParts, CallText};
