//! Windows in which events of one function version and one value wait together for their run. Stands on
//! `lists`, `kinds` and the lemmas of `ordered`; promises what each offer answers and what it leaves.
#![tactic(auto)]

mod entries;
mod event;
mod held;
mod windows;

pub use entries::Entries;
pub use windows::Windows;
