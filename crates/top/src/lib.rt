//! The top call: the words of the command line, the run of the program, and the status that it ends
//! with. Stands on `replay_core`, and promises what is written for every script and how it ends.
#![tactic(auto)]

mod entry;
mod program;
mod status;

pub use entry::run;
pub use program::Program;
pub use status::Status;

#[cfg(test)]
mod events_tests;
#[cfg(test)]
mod journal_tests;
#[cfg(test)]
mod registration_tests;
#[cfg(test)]
mod runs_tests;
#[cfg(test)]
mod tests;
