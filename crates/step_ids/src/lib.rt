//! Names of steps and ids of runs, and back from a text to the run that it names.
//! Stands on the hash, hexadecimal and UUID crates of the kit, and promises each text byte for byte.
#![tactic(auto)]

mod run;
mod step;

pub use run::{distinct_runs, run_id, run_number};
pub use step::{is_step_hash, step_hash};

#[cfg(test)]
mod tests;
