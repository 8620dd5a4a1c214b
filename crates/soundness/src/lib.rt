//! Soundness of the documented machine: what holds of every state that it reaches, and of throttles over whole
//! histories. It has no code but laws: public functions with empty bodies.
#![tactic(auto)]

mod calls;
mod named;
mod throttles;
mod whole;

pub use calls::{items_are_unrecorded, runs_find_out_once, runs_without_a_call_are_fresh};
pub use named::{planned_steps_are_called_once, what_is_named_is_there};
pub use throttles::{
    entries_tell_of_starts, made_calls_are_numbered, nothing_is_over_the_greatest,
    said_calls_are_made, starts_are_let, throttles_hold,
};
pub use whole::histories_are_sound;
