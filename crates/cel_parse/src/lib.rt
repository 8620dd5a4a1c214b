//! Expressions from their texts. Stands on `lists`, `expr` and `text_num`, and promises the tree of each text
//! that the grammar spells within its limits, and of each other text the fault and its place.
#![tactic(auto)]

mod cutter;
mod fault;
mod frame;
mod laws;
mod parser;
mod quoted;
mod rules;
mod step;
mod token;

pub use fault::ParseFault;
pub use laws::{exact, parsed, places};
pub use parser::parse;
