// The entries of sleeps, waits and invocations.
use crate::timed::Timed;
use kinds::StepHash;
use ordered::{OfRun, Ranked};

/// A step of a run that sleeps until a moment, in milliseconds since 1970.
#[derive(Clone, Copy, Debug, PartialEq, Eq)]
pub struct Sleep {
    /// The entry's number.
    pub number: u64,
    /// The run that sleeps.
    pub run: u64,
    /// The step's name.
    pub hash: StepHash,
    /// When it wakes, in milliseconds since 1970.
    pub due: u64,
}

/// The step of a wait: what its end needs. The wait ends at a moment, in milliseconds since 1970.
#[derive(Clone, Copy, Debug, PartialEq, Eq)]
pub struct WaitStep {
    /// The wait's number.
    pub number: u64,
    /// The run that waits.
    pub run: u64,
    /// The step's name.
    pub hash: StepHash,
    /// When the wait ends, in milliseconds since 1970.
    pub due: u64,
}

/// A step of a run that waits for the end of another run, and no longer than to a moment, where there is
/// one, in milliseconds since 1970.
#[derive(Clone, Copy, Debug, PartialEq, Eq)]
pub struct Invocation {
    /// The entry's number.
    pub number: u64,
    /// The run that waits.
    pub run: u64,
    /// The step's name.
    pub hash: StepHash,
    /// The run that is waited for.
    pub child: u64,
    /// When it waits no longer, in milliseconds since 1970.
    pub due: Option<u64>,
}

impl Ranked for Sleep {
    ghost use Rattle.awaited.specs.Entries.{sleep_number};

    ghost rank_of = { λ _. 0 };

    ghost number_of = { sleep_number };

    fn rank(&self) -> u64 {
        0
    }

    fn number(&self) -> u64 {
        self.number
    }
}

impl OfRun for Sleep {
    ghost use Rattle.awaited.specs.Entries.{sleep_run};

    ghost run_of = { sleep_run };

    fn run(&self) -> u64 {
        self.run
    }
}

impl Timed for Sleep {
    ghost use Rattle.std.specs.Prelude.{refl};
    ghost use Rattle.awaited.specs.Entries.{sleep_due};

    ghost due_of = { sleep_due };

    fn due(&self) -> Option<u64> {
        Some(self.due)
    }

    ghost by_number = { λ e. refl };
}

impl Ranked for WaitStep {
    ghost use Rattle.awaited.specs.Entries.{step_number};

    ghost rank_of = { λ _. 0 };

    ghost number_of = { step_number };

    fn rank(&self) -> u64 {
        0
    }

    fn number(&self) -> u64 {
        self.number
    }
}

impl OfRun for WaitStep {
    ghost use Rattle.awaited.specs.Entries.{step_run};

    ghost run_of = { step_run };

    fn run(&self) -> u64 {
        self.run
    }
}

impl Timed for WaitStep {
    ghost use Rattle.std.specs.Prelude.{refl};
    ghost use Rattle.awaited.specs.Entries.{step_due};

    ghost due_of = { step_due };

    fn due(&self) -> Option<u64> {
        Some(self.due)
    }

    ghost by_number = { λ e. refl };
}

impl Ranked for Invocation {
    ghost use Rattle.awaited.specs.Entries.{invocation_number};

    ghost rank_of = { λ _. 0 };

    ghost number_of = { invocation_number };

    fn rank(&self) -> u64 {
        0
    }

    fn number(&self) -> u64 {
        self.number
    }
}

impl OfRun for Invocation {
    ghost use Rattle.awaited.specs.Entries.{invocation_run};

    ghost run_of = { invocation_run };

    fn run(&self) -> u64 {
        self.run
    }
}

impl Timed for Invocation {
    ghost use Rattle.std.specs.Prelude.{refl};
    ghost use Rattle.awaited.specs.Entries.{invocation_due};

    ghost due_of = { invocation_due };

    fn due(&self) -> Option<u64> {
        self.due
    }

    ghost by_number = { λ e. refl };
}
