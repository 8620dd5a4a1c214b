//! The documented machine with runs, as definitions: its state as plain lists, its inputs, one step, whole histories,
//! and laws that hold of them. It has no code but laws: public functions with empty bodies.
#![tactic(auto)]

mod calls;
mod fit;
mod going;
mod items;
mod laws;
mod remembering;
mod settling;
mod waiting;

pub use calls::{
    calls_are_of_runs, items_stay_new, limits_are_kept, recorded_steps_are_not_called,
    runs_have_room_for_names, steps_are_recorded_once,
};
pub use fit::{
    empty_is_fit, histories_are_fit, runs_are_fixed, steps_stay_fit, windows_have_rules,
};
pub use going::{
    invocations_have_children, live_runs_can_go_on, wanted_runs_find_out,
    what_falls_due_is_recorded, what_waits_is_pending,
};
pub use items::{
    ended_calls_leave_items_aside, entries_have_own_numbers, items_have_own_numbers,
    items_keep_own_numbers, operations_leave_items_aside,
};
pub use laws::{
    current_functions_have_own_ids, each_stands_once, numbers_are_counted, numbers_rise,
    numbers_stay_counted, only_registrations_change_functions, recorded_only_grows,
    recorded_steps_stay, runs_keep_standing_once, runs_stand_once, what_holds_of_reached_states,
    what_is_there_is_named, what_waits_is_of_live_runs,
};
pub use remembering::{ids_are_remembered_once, runs_have_events, what_happened_is_dated};
pub use settling::{calls_send_all_that_is_recorded, nothing_admissible_is_left};
pub use waiting::{
    nothing_happens_before_the_next_moment, nothing_is_overdue,
    only_time_passes_before_the_next_moment, runs_are_dated, steps_are_tidied,
};
