// A run that hasn't begun.
ghost use Rattle.std.specs.Prelude.{◌≡◌};
ghost use Rattle.kinds.specs.RunSteps.{no_steps};
ghost use Rattle.run_state.specs.declared.ended.Ended.TheVariants.{Cancelled};

use crate::{Active, Ended};
use std::alloc::Global;
use std::marker::Model;

/// A run that hasn't begun: no call of it was made yet. Contracts see that it has no steps.
#[derive(Drop)]
pub struct Fresh {
    alloc: Global,
}

impl Model for Fresh {
    ghost use Rattle.kinds.specs.RunSteps.{RunSteps, no_steps};

    ghost Value = { RunSteps };

    ghost view = { λ f. no_steps };
}

impl Fresh {
    /// Takes no memory.
    pub fn empty(alloc: Global) -> Self
        ensures { result ≡ no_steps }
    {
        Fresh { alloc }
    }

    /// The run's first call is made. Takes no memory.
    pub fn begin(self) -> Active
        ensures { result ≡ no_steps }
    {
        Active::empty(self.alloc)
    }

    /// The run is cancelled before its first call.
    pub fn cancel(self) -> Ended
        ensures { result ≡ Cancelled }
    {
        Ended::Cancelled
    }
}
