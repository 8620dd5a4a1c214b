//! What a function's expressions make of the events of a run: conditions, keys, cells with limits, the
//! throttle's cell, shift, buckets; an event's text is read once. Stands on `cel_eval`, `expr`,
//! `json_text`, `kinds` and `lists`, and promises each answer by its definition over the texts.
#![tactic(auto)]

mod answers;
mod bucket;
mod cells;
mod comparison;
mod conditions;
mod laws;
mod matcher;
mod read_event;
mod shift;

pub use laws::{buckets_are_right, no_bucket_hides, one_event_is_matched};
pub use matcher::{EventTexts, FreshMatcher};
pub use read_event::ReadEvent;

#[cfg(test)]
mod tests;
