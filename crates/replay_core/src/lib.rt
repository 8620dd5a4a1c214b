//! Scripts: reads the lines of a source, runs them through the machine, keeps the accepted ones in a
//! journal, and prints what the machine says. Stands on `machine`, `generator`, `requests`, `journal_core` and `rig`,
//! and promises that what is printed and how the run ends is what the documented machine makes of the
//! script, however the source cuts it, and that a line is in the journal before its answer is printed. The inputs of
//! `generator` go the same way, into one line that tells of what they print.
#![tactic(auto)]

mod bytes;
mod end;
mod form;
mod generated;
mod laws;
mod line;
mod log;
mod logged;
mod printing;
mod progress;
mod reader;
mod reply;
mod script;

pub use end::ReplayEnd;
pub use form::Form;
pub use generated::run_gen;
pub use laws::{accepted_lines_go_on, generated_lines_are_known};
pub use script::{run_lines, run_script};
