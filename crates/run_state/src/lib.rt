//! The steps of one run by name, in three states of the run: not begun, active, ended. Stands on `lists`
//! and `kinds`, and promises that a recorded result never changes and that a run has at most 1,000
//! names.
#![tactic(auto)]

mod active;
mod ended;
mod entries;
mod fresh;

pub use active::{Active, Noted};
pub use ended::Ended;
pub use entries::Entries;
pub use fresh::Fresh;
