// One run, and what it is made with.
ghost use Rattle.std.specs.Prelude.{◌≡◌, IfOk, OnOk, OnErr, length, nat_le, true, false};
ghost use Rattle.std.specs.Option.{option_map, option_copied};
ghost use Rattle.kinds.specs.RunSteps.{is_recorded, is_pending, result_of};
ghost use Rattle.runs.specs.Runs.{IsBounded, first_of, score_of, bytes_of_steps};
ghost use Rattle.runs.specs.Changes.{IsNoted, want, called, result_for, with_result, with_plan};
ghost use Rattle.runs.specs.Changes.{with_pending, is_new_result, keep_in, plan_in, pend_in};
ghost use Rattle.runs.specs.Origin.{run_of};

use crate::Naming;
use crate::boxed_steps::BoxedSteps;
use crate::rare::boxed;
use crate::results::state_too_large;
use kinds::{
    Cell, CellLimits, Numbers, Parent, Pending, Shared, StepEntry, StepHash, error_object,
};
use lists::{Bytes, Memory};
use std::alloc::Global;
use std::marker::Model;

/// The most bytes that the results of a run have.
const MOST_BYTES: u64 = 4_194_304;

/// What a run is made with.
#[derive(Drop)]
pub struct Origin {
    /// The run's number.
    pub number: u64,
    /// When it is made, in milliseconds since 1970.
    pub moment: u64,
    /// The function that it is a run of.
    pub version: u64,
    /// The numbers of its events, in order.
    pub events: Numbers,
    /// Its concurrency cells with their limits, each cell once.
    pub cells: CellLimits,
    /// Its throttle's cell.
    pub start: Option<Shared<Cell>>,
    /// So many seconds it goes before others of its moment, from -600 to 600.
    pub shift: i64,
    /// The step that invoked it.
    pub parent: Option<Parent>,
}

/// A run that has not ended, or whose calls are open still. Contracts see the record of what is
/// documented of it.
#[derive(Drop)]
pub struct Run {
    alloc: Global,
    number: u64,
    moment: u64,
    version: u64,
    events: Numbers,
    cells: CellLimits,
    start: Option<Shared<Cell>>,
    shift: i64,
    wanted: bool,
    planned: bool,
    started: bool,
    parent: Option<Box<Parent>>,
    steps: BoxedSteps,
    /// The bytes of its results.
    bytes: u64,
}

impl Model for Run {
    ghost use Rattle.std.specs.Prelude.{◌≡◌};
    ghost use Rattle.runs.specs.Boxed.{unboxed};
    ghost use Rattle.runs.specs.Runs.{Run, IsBounded, bytes_of_steps};

    ghost Value = { Run };

    ghost view = { λ r. record {
      number = r.number;
      moment = r.moment;
      version = r.version;
      events = r.events;
      cells = r.cells;
      start = r.start;
      shift = r.shift;
      wanted = r.wanted;
      planned = r.planned;
      started = r.started;
      parent = unboxed r.parent;
      steps = r.steps;
    } };

    ghost invariant = { λ r. IsBounded r.moment r.shift × (r.bytes ≡ bytes_of_steps r.steps.recorded) };
}

impl Run {
    /// A run that wants its first call.
    pub fn new(alloc: Global, origin: Origin) -> Result<Self, Memory>
        requires { IsBounded origin.moment origin.shift }
        ensures { IfOk result (λ run. run ≡ run_of origin) }
    {
        let Origin {
            number,
            moment,
            version,
            events,
            cells,
            start,
            shift,
            parent,
        } = origin;
        let parent = boxed(alloc, parent)?;
        Ok(Run {
            alloc,
            number,
            moment,
            version,
            events,
            cells,
            start,
            shift,
            wanted: true,
            planned: false,
            started: false,
            parent,
            steps: BoxedSteps::empty(),
            bytes: 0,
        })
    }

    pub fn number(&self) -> u64
        ensures { result ≡ self.now.number }
    {
        self.number
    }

    /// When it was made, in milliseconds since 1970.
    pub fn moment(&self) -> u64
        ensures { result ≡ self.now.moment }
    {
        self.moment
    }

    /// The function that it is a run of.
    pub fn version(&self) -> u64
        ensures { result ≡ self.now.version }
    {
        self.version
    }

    /// The numbers of its events, in order.
    pub fn events(&self) -> &[u64]
        ensures { result.now ≡ self.now.events }
    {
        self.events.as_slice()
    }

    /// The number of its first event, or 0 where it has none.
    pub fn first(&self) -> u64
        ensures { result ≡ first_of self.now.events }
    {
        self.events.get(0).copied().unwrap_or(0)
    }

    /// Its concurrency cells with their limits.
    pub fn cells(&self) -> &CellLimits
        ensures { result.now ≡ self.now.cells }
    {
        &self.cells
    }

    /// Its throttle's cell.
    pub fn start(&self) -> Option<&Shared<Cell>>
        ensures { option_copied result ≡ self.now.start }
    {
        self.start.as_ref()
    }

    /// In the order of scores runs of one moment go, and those of others: the lesser comes first. It is
    /// the moment less a thousand times the shift.
    pub fn score(&self) -> i64
        ensures { result ≡ score_of self.now }
    {
        self.moment as i64 - 1_000 * self.shift
    }

    /// Something was recorded since its last call that finds out what comes next, or there was none yet.
    pub fn is_wanted(&self) -> bool
        ensures { result ≡ self.now.wanted }
    {
        self.wanted
    }

    /// It planned a step.
    pub fn has_planned(&self) -> bool
        ensures { result ≡ self.now.planned }
    {
        self.planned
    }

    /// A call of it was made.
    pub fn has_started(&self) -> bool
        ensures { result ≡ self.now.started }
    {
        self.started
    }

    /// The step that invoked it.
    pub fn parent(&self) -> Option<Parent>
        ensures { result ≡ self.now.parent }
    {
        match &self.parent {
            Some(parent) => Some(**parent),
            None => None,
        }
    }

    /// The recorded steps in the order of recording, as a call sends them.
    pub fn steps(&self) -> &[StepEntry]
        ensures { result.now ≡ self.now.steps.recorded }
    {
        self.steps.recorded()
    }

    /// The result of a recorded step.
    pub fn result_of(&self, hash: &StepHash) -> Option<&[u8]>
        ensures { option_map (λ text. text.now) result ≡ result_of hash.now self.now.steps }
    {
        self.steps.result_of(hash)
    }

    pub fn is_recorded(&self, hash: &StepHash) -> bool
        ensures { result ≡ is_recorded hash.now self.now.steps }
    {
        self.steps.is_recorded(hash)
    }

    /// Whether a step waits for something.
    pub fn is_pending(&self, hash: &StepHash) -> bool
        ensures { result ≡ is_pending hash.now self.now.steps }
    {
        self.steps.is_pending(hash)
    }

    /// Whether a result for the name would be new: it is neither recorded nor waits for something.
    pub fn has_new_result(&self, hash: &StepHash) -> bool
        ensures { result ≡ is_new_result hash.now self.now.steps }
    {
        !(self.steps.is_recorded(hash) || self.steps.is_pending(hash))
    }

    /// Whether any step waits for something.
    pub fn is_waiting(&self) -> bool
        ensures { result ≡ nat_le 1 (length self.now.steps.pending) }
    {
        self.steps.is_waiting()
    }

    /// The bytes of its results.
    pub fn bytes(&self) -> u64
        ensures { result ≡ bytes_of_steps self.now.steps.recorded }
    {
        self.bytes
    }

    /// A result, or where it would bring the run past its bytes an error in its place.
    pub(crate) fn fit(&self, text: Bytes) -> Result<Bytes, Memory>
        ensures { IfOk result (λ fitted. fitted ≡ result_for text self.now) }
    {
        if self.bytes.saturating_add(text.len() as u64) > MOST_BYTES {
            return state_too_large(self.alloc);
        }
        Ok(text)
    }

    pub(crate) fn want(&mut self)
        ensures { self.new ≡ want self.old }
    {
        self.wanted = true;
    }

    pub(crate) fn call(&mut self, target: &[u8])
        ensures { self.new ≡ called target.now self.old }
    {
        self.started = true;
        self.wanted = self.wanted && target != b"step".as_slice();
    }

    /// A step reports its result, which fits.
    pub(crate) fn keep(&mut self, hash: &StepHash, text: Bytes) -> Result<Naming, Memory>
        ensures ok { IfOk result (λ naming. IsNoted (keep_in hash.now text self.old)
            (with_result hash.now text self.old) self.old naming self.new) }
        ensures err { OnErr result (self.new ≡ self.old) }
    {
        let bytes = self.bytes.checked_add(text.len() as u64).ok_or(Memory)?;
        let naming = self.steps.keep(self.alloc, hash, text)?;
        match naming {
            Naming::New => {
                self.bytes = bytes;
                self.wanted = true;
                Ok(Naming::New)
            }
            Naming::Known => Ok(Naming::Known),
            Naming::Full => Ok(Naming::Full),
        }
    }

    /// What a step waits for has come, with a result that fits.
    pub(crate) fn wake(&mut self, hash: &StepHash, text: Bytes) -> Result<(), Memory>
        requires { is_pending hash.now self.old.steps ≡ true }
        ensures ok { OnOk result (self.new ≡ with_result hash.now text self.old) }
        ensures err { OnErr result (self.new ≡ self.old) }
    {
        let bytes = self.bytes.checked_add(text.len() as u64).ok_or(Memory)?;
        self.steps.wake(self.alloc, hash, text)?;
        self.bytes = bytes;
        self.wanted = true;
        Ok(())
    }

    /// A step is to run by a call of its own.
    pub(crate) fn plan(&mut self, hash: &StepHash) -> Result<Naming, Memory>
        ensures ok { IfOk result (λ naming. IsNoted (plan_in hash.now self.old)
            (with_plan hash.now self.old) self.old naming self.new) }
        ensures err { OnErr result (self.new ≡ self.old) }
    {
        match self.steps.plan(self.alloc, hash)? {
            Naming::New => {
                self.planned = true;
                Ok(Naming::New)
            }
            Naming::Known => Ok(Naming::Known),
            Naming::Full => Ok(Naming::Full),
        }
    }

    /// A step waits.
    pub(crate) fn pend(&mut self, hash: &StepHash, kind: Pending) -> Result<Naming, Memory>
        ensures ok { IfOk result (λ naming. IsNoted (pend_in hash.now kind self.old)
            (with_pending hash.now kind self.old) self.old naming self.new) }
        ensures err { OnErr result (self.new ≡ self.old) }
    {
        self.steps.pend(self.alloc, hash, kind)
    }
}
