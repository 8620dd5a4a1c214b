//! Moments at which something is due: sleeps, the ends of waits, invocations, rules and windows, and limits
//! of calls. Stands on the ordered store; contracts see the dues in order of due and number.
#![tactic(auto)]

mod timers;

pub use timers::Timers;

#[cfg(test)]
mod tests;
