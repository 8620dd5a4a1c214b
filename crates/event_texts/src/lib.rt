//! The texts of accepted events by number, and the bytes of those that count. Stands on `event_keys` and
//! `lists`, and is the list of the events and of the numbers of those that count.
#![tactic(auto)]

mod entries;
mod texts;

pub use entries::Entries;
pub use texts::{EventText, Texts};

#[cfg(test)]
mod tests;
