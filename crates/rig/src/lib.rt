//! The outside as the product sees it: bytes that come in and go out, the disk, the network and the
//! clock. Stands on `lists`. Each trait says what its object means and that it answers a fault only
//! where its own count of faults rose; the forms in memory meet the traits and tell their contents.
#![tactic(auto)]

mod entries;
mod faults;
mod memory_file;
mod memory_rig;
mod memory_sink;
mod memory_source;
mod rig;
mod side;
mod silent_rig;
mod sink;
mod source;

pub use entries::{AskedEntry, HeardEntry, SaidEntry};
pub use faults::{FailForm, FailedCall, next_count};
pub use memory_file::Image;
pub use memory_rig::MemRig;
pub use memory_sink::{FailedWrite, MemSink};
pub use memory_source::MemSource;
pub use rig::{DiskFailed, Rig};
pub use side::Side;
pub use silent_rig::SilentRig;
pub use sink::{Sink, WriteFailed};
pub use source::{ReadFailed, Source};
