//! The starts of throttled runs: one number for each throttle's cell, which tells of all its starts when the
//! next is let. Stands on `kinds`. Contracts see the list of entries in order of cell.
#![tactic(auto)]

mod entries;
mod places;
mod starts;

pub use entries::Entries;
pub use starts::Starts;

#[cfg(test)]
mod tests;
