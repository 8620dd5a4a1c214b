//! The open issues with their concurrency cells, and for each cell a count of the issues that have it.
//! Stands on `kinds`. Contracts see the list of issues in order of number, and no count.
#![tactic(auto)]

mod counters;
mod entries;
mod keys;

pub use entries::Entries;
pub use keys::ConcurrencyKeys;

#[cfg(test)]
mod tests;
