//! The rules by which events cancel runs. Stands on the index of what is matched with events; contracts
//! see the rules in order of number.
#![tactic(auto)]

mod rules;

pub use rules::CancelRules;
