//! What comes in: the events that a request's body gives, and the event ids of the last day, by which a
//! repeated event is told. Stands on `kinds`, `json_text` and `sha2`, and promises the events of a body
//! or its first fault, and that a window of ids is its list of entries, whatever it keeps to find them.
#![tactic(auto)]

mod events;
mod fault;
mod laws;
mod members;
mod place;
mod placed;
mod seen;
mod timeline;
mod window;
mod written;

pub use events::read_events;
pub use fault::IntakeFault;
pub use laws::plain_texts_stay;
pub use seen::Seen;
pub use timeline::Entries;
pub use written::event_text;
