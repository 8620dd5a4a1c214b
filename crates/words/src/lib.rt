//! The words of the command line, read by `clap`: for each program what its words ask for, and where
//! they aren't its words. Stands on `clap` alone, by whose stated reading of a command both are exact.
#![tactic(auto)]

mod fault;
mod replay;

pub use fault::WordsFault;
pub use replay::{ReplayWords, read_replay_words};

#[cfg(test)]
mod tests;
