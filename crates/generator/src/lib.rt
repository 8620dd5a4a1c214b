//! The inputs that the generator of `replay` makes, and what they make of the documented machine. Stands
//! on `kinds`, `cel_parse` and `run_model`, and promises that each input is the one that is defined. Laws
//! say that each is accepted, and how many runs and calls there are in the end.
#![tactic(auto)]

mod app;
mod drawn;
mod events;
mod laws;
mod replies;

pub use app::registration;
pub use drawn::Drawn;
pub use events::event_input;
pub use laws::{histories_are_accepted, histories_end, replies_follow};
pub use replies::reply_input;
