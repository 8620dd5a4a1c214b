//! The runs that have not ended, those whose calls are open still, and those that ended last. Stands on
//! `lists`, `kinds`, `run_state` and `ordered`; contracts see plain lists of runs.
#![tactic(auto)]

mod boxed;
mod boxed_steps;
mod counted;
mod ended;
mod list;
mod map;
mod mentions;
mod naming;
mod rare;
mod results;
mod row;
mod run;
mod runs;
mod steps;

pub use ended::{EndedRun, EndedRuns};
pub use list::Entries;
pub use naming::Naming;
pub use results::error_result;
pub use run::{Origin, Run};
pub use runs::Runs;
