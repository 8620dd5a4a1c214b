//! The runs that wait for events. Stands on the index of what is matched with events; contracts see the
//! waits in order of number.
#![tactic(auto)]

mod waits;

pub use waits::WaitIndex;
