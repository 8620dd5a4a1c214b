//! Which calls are made next: the items that wait to be issued, the open calls that count in cells, and
//! the starts of throttles. Stands on `lists`, `kinds`, `ready_queue` and what its gate asks. Contracts
//! see the lists of items, of open calls and of starts, and the moment, and no index.
#![tactic(auto)]

mod admission;
mod calls;
mod issue;
mod issues;
mod open_calls;
mod place;
mod placed;
mod waiting;

pub use admission::Admission;
pub use issue::{CallLimit, Issue};
pub use open_calls::OpenCalls;
