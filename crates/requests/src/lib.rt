//! Requests: from a clock reading and a request's body to an input of the machine, or to the answer that
//! is given at once. Stands on `kinds`, `intake` and `registry`, and promises which of the two comes, and
//! each in full: one rule for the lines of a script and for the network.
#![tactic(auto)]

mod events;
mod registrations;
mod requested;

pub use events::read_events_request;
pub use registrations::read_register_request;
pub use requested::Requested;

#[cfg(test)]
mod tests;
