// What a machine is made of.
use crate::counts::Counts;
use crate::loose::Loose;
use crate::numbers::NumberSet;
use crate::versions::Versions;
use admission::Admission;
use awaited::{Invocations, Rules, Sleeps, Waits, WindowSet};
use event_texts::Texts;
use intake::Seen;
use kinds::Limits;
use runs::{EndedRuns, Runs};
use std::alloc::Global;

/// What a machine is made of. Where a call answers want of memory, the parts are spent.
#[derive(Drop)]
pub(crate) struct Parts {
    pub(crate) alloc: Global,
    pub(crate) limits: Limits,
    pub(crate) moment: u64,
    pub(crate) counts: Counts,
    pub(crate) versions: Versions,
    pub(crate) seen: Seen,
    pub(crate) texts: Texts,
    pub(crate) runs: Runs,
    pub(crate) ended: EndedRuns,
    pub(crate) admission: Admission,
    pub(crate) sleeps: Sleeps,
    pub(crate) waits: Waits,
    pub(crate) invocations: Invocations,
    pub(crate) rules: Rules,
    pub(crate) windows: WindowSet,
    /// All runs that may want to find out what comes next and have no item for that.
    pub(crate) wanting: NumberSet,
    /// All that may go at the end of the step.
    pub(crate) loose: Loose,
}
