//! The journal: payloads that stay on the disk from the moment when they are acknowledged. Stands on
//! `rig`, makes all calls on the disk, and promises what a crash within each call may leave.
//!
//! **In this first format a crash may leave a torn record, and a reader may take it for a payload**: a
//! record carries nothing that tells a whole one from a torn one. Each acknowledged payload is kept all
//! the same, and stands before whatever the torn record is read as.
#![tactic(auto)]

mod journal;
mod record;

pub use journal::{Journal, JournalFault};

#[cfg(test)]
mod tests;
