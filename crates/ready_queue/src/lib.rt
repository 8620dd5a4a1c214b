//! The calls that are to be made, and which of them may be made next. Stands on `lists`, `kinds` and
//! `ordered`, and for its gate on `concurrency_keys` and `throttle`. Contracts see the list of items in
//! order of number, and of a queue that parks groups those that are parked too.
#![tactic(auto)]

mod admission;
mod ahead;
mod boxed;
mod entries;
mod fronts;
mod gate;
mod index;
mod item;
mod listed;
mod lot;
mod moment;
mod parking;
mod pool;
mod queue;
mod ready;
mod scan;
mod store;
mod walk;

pub use admission::Admission;
pub use entries::Entries;
pub use gate::Gate;
pub use parking::ParkingQueue;
pub use queue::ReadyQueue;
