// The machine between two inputs: what it refuses, and its views.
ghost use Rattle.std.specs.Prelude.{◌≡◌, IfOk, MatchResult, None, Some};
ghost use Rattle.run_model.specs.Machine.{refusal, refusal_of_call, refusal_of_cancel, refusal_of_events, refusal_of_registration};
ghost use Rattle.run_model.specs.State.{empty, greatest, kept, live, live_run, open_issue};
ghost use Rattle.machine.specs.Held.{IsReady};
ghost use Rattle.machine.specs.Numbers.{nothing};
ghost use Rattle.machine.specs.View.{state_of};

use crate::Parts;
use crate::counts::Counts;
use crate::loose::Loose;
use crate::numbers::NumberSet;
use crate::versions::Versions;
use admission::Admission;
use awaited::{Invocations, Rules, Sleeps, Waits, WindowSet};
use event_texts::Texts;
use intake::Seen;
use kinds::{App, Input, Limits, Refusal};
use lists::Memory;
use runs::{EndedRuns, Runs};
use std::alloc::Global;
use std::marker::Model;

/// The last millisecond of the year 9999, as which a later clock reading counts.
pub(crate) const LAST_MOMENT: u64 = 253_402_300_799_999;

/// The count from which on no input is taken: 2^61.
const SPENT: u64 = 1 << 61;

/// The machine between two inputs. Contracts see it as the documented machine's state.
#[derive(Drop)]
pub struct Machine {
    // On the heap, so that a machine moves and goes as one pointer.
    pub(crate) parts: Box<Parts>,
}

impl Model for Machine {
    ghost use Rattle.std.specs.Prelude.{box_value};
    ghost use Rattle.run_model.specs.State.{State};
    ghost use Rattle.machine.specs.Held.{IsReady};
    ghost use Rattle.machine.specs.View.{state_of};

    ghost Value = { State };

    ghost view = { λ m. state_of (box_value m.parts) };

    ghost invariant = { λ m. IsReady (box_value m.parts) };
}

impl Machine {
    /// The machine before its first input, with its limits.
    pub fn empty(alloc: Global, limits: Limits) -> Result<Self, Memory>
        ensures { IfOk result (λ m. m ≡ empty limits) }
    {
        let parts = Box::new(alloc, Parts::empty(alloc, limits))?;
        Ok(Machine { parts })
    }

    pub(crate) fn parts(&self) -> &Parts
        ensures state { state_of result.now ≡ self.now }
        ensures ready { IsReady result.now }
    {
        &self.parts
    }

    /// The moment of the last input, in milliseconds since 1970.
    pub fn moment(&self) -> u64
        ensures { result ≡ self.now.moment }
    {
        self.parts.moment
    }

    /// How many inputs were taken.
    pub fn inputs(&self) -> u64
        ensures { result ≡ self.now.inputs }
    {
        self.parts.counts.inputs
    }

    /// How many numbers were given to events.
    pub fn events(&self) -> u64
        ensures { result ≡ self.now.events }
    {
        self.parts.counts.events
    }

    /// How many numbers were given to runs.
    pub fn runs(&self) -> u64
        ensures { result ≡ self.now.runs }
    {
        self.parts.counts.runs
    }

    /// How many calls were made.
    pub fn calls(&self) -> u64
        ensures { result ≡ self.now.calls }
    {
        self.parts.counts.calls
    }

    /// The greatest count of names and inputs.
    pub fn greatest(&self) -> u64
        ensures { result ≡ greatest self.now }
    {
        self.parts.counts.greatest()
    }

    /// How many runs have not ended.
    pub fn live(&self) -> u64
        ensures { result ≡ live self.now }
    {
        self.parts.runs.count()
    }

    // The bytes that are kept: of the events that runs and windows name, of the results of runs, and of remembered ids.
    fn kept(&self) -> u64
        ensures { result ≡ kept self.now }
    {
        let parts = self.parts();
        parts.texts.bytes() + parts.runs.results() + parts.seen.weight()
    }

    /// Whether the machine as it stands takes an input, and if not, the first reason why.
    pub fn check(&self, input: &Input) -> Result<(), Refusal>
        ensures { MatchResult result
            (λ _. refusal self.now input.now ≡ None)
            (λ cause. refusal self.now input.now ≡ Some cause) }
    {
        let greatest = self.greatest();
        if greatest >= SPENT {
            return Err(Refusal::NumbersSpent { greatest });
        }
        match input {
            Input::Events { .. } => self.check_room(),
            Input::Register { app, .. } => self.check_functions(app),
            Input::Reply { call, .. } | Input::CallFailed { call, .. } => self.check_call(*call),
            Input::Cancel { run, .. } => self.check_run(*run),
            Input::Tick { .. } | Input::Reopened { .. } => Ok(()),
        }
    }

    // Whether what is kept and the runs leave room for new work.
    fn check_room(&self) -> Result<(), Refusal>
        ensures { MatchResult result
            (λ _. refusal_of_events self.now ≡ None)
            (λ cause. refusal_of_events self.now ≡ Some cause) }
    {
        let parts = self.parts();
        let kept = self.kept();
        if kept >= parts.limits.kept {
            return Err(Refusal::KeptFull { kept });
        }
        let live = self.live();
        if live >= parts.limits.live {
            return Err(Refusal::RunsFull { live });
        }
        Ok(())
    }

    // Whether the functions that would be current after a registration are few enough.
    fn check_functions(&self, app: &App) -> Result<(), Refusal>
        ensures { MatchResult result
            (λ _. refusal_of_registration app.now self.now ≡ None)
            (λ cause. refusal_of_registration app.now self.now ≡ Some cause) }
    {
        let functions = self.parts.versions.current_after(app);
        if functions > self.parts.limits.functions {
            Err(Refusal::FunctionsFull { functions })
        } else {
            Ok(())
        }
    }

    // Whether a call is open.
    fn check_call(&self, call: u64) -> Result<(), Refusal>
        ensures { MatchResult result
            (λ _. refusal_of_call call (open_issue call self.now) ≡ None)
            (λ cause. refusal_of_call call (open_issue call self.now) ≡ Some cause) }
    {
        match self.parts.admission.open_issue(call) {
            Some(_) => Ok(()),
            None => Err(Refusal::UnknownCall { call }),
        }
    }

    // Whether a run can be cancelled.
    fn check_run(&self, run: u64) -> Result<(), Refusal>
        ensures { MatchResult result
            (λ _. refusal_of_cancel run (live_run run self.now) self.now ≡ None)
            (λ cause. refusal_of_cancel run (live_run run self.now) self.now ≡ Some cause) }
    {
        let parts = self.parts();
        match parts.runs.live(run) {
            Some(_) => Ok(()),
            None if parts.ended.is_last(run) => Err(Refusal::RunEnded { run }),
            None => Err(Refusal::UnknownRun { run }),
        }
    }
}

impl Parts {
    // Nothing has happened.
    fn empty(alloc: Global, limits: Limits) -> Self
        ensures state { state_of result ≡ empty limits }
        ensures clock { result.admission.moment ≡ 0 }
        ensures loose { result.loose ≡ nothing }
    {
        Parts {
            alloc,
            limits,
            moment: 0,
            counts: Counts::empty(),
            versions: Versions::empty(alloc),
            seen: Seen::empty(alloc),
            texts: Texts::empty(alloc),
            runs: Runs::empty(alloc),
            ended: EndedRuns::empty(alloc),
            admission: Admission::empty(alloc),
            sleeps: Sleeps::empty(alloc),
            waits: Waits::empty(alloc),
            invocations: Invocations::empty(alloc),
            rules: Rules::empty(alloc),
            windows: WindowSet::empty(alloc),
            wanting: NumberSet::empty(alloc),
            loose: Loose::empty(alloc),
        }
    }
}
