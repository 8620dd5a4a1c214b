//! One index for all that is matched with events, waits and cancel rules alike: entries found by number and
//! run, and by the name and the bucket of an event. Stands on the ordered store.
#![tactic(auto)]

mod conditional;
mod entries;
mod gather;
mod index;
mod near;
mod place;

pub use conditional::Conditional;
pub use index::Index;
pub use place::Field;
