// A run that is over.
use kinds::RunStatus;

/// How a run ended. It keeps nothing of the run, and nothing can be recorded in it.
#[derive(Clone, Copy, Debug, PartialEq, Eq)]
pub enum Ended {
    /// With an output.
    Completed,
    /// With an error.
    Failed,
    /// From outside.
    Cancelled,
}

/// As views of runs show it.
impl From<Ended> for RunStatus {
    ghost use Rattle.std.specs.Prelude.{◌≡◌};
    ghost use Rattle.run_state.specs.Status.{status_of};

    ghost from_gives = { λ e s. s ≡ status_of e };

    fn from(ended: Ended) -> Self {
        match ended {
            Ended::Completed => RunStatus::Completed,
            Ended::Failed => RunStatus::Failed,
            Ended::Cancelled => RunStatus::Cancelled,
        }
    }
}
