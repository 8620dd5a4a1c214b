//! One store for all that stands in an order and has a number: entries in order of rank and number, found
//! by number, and also by run. Stands on `lists`; contracts see a store as the list of its entries.
#![tactic(auto)]

mod entries;
mod numbered;
mod ranked;
mod store;

pub use numbered::{Entries, Numbered};
pub use ranked::{OfRun, Ranked};
pub use store::Ordered;
