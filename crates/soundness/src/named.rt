// What is named, and what is called: in each state that is reached.
ghost use Rattle.kinds.specs.declared.input.Input.{Input};
ghost use Rattle.kinds.specs.declared.limits.Limits.{Limits};
ghost use Rattle.run_model.specs.Machine.{fold};
ghost use Rattle.run_model.specs.Sound.{CallsPlanned, HasNamed};
ghost use Rattle.std.specs.Prelude.{List};

/// The function version and the events of each run that has not ended or whose call is open, and of each window, are
/// there, and so is the run of each open call.
pub fn what_is_named_is_there()
    ensures { (limits : Limits) (inputs : List Input) → HasNamed (fold limits inputs) }
{}

/// Each planned name of a run that has not ended has one queued item or one open call, is not recorded and waits for
/// nothing; and the target of each item and each open call of such a run finds out what comes next, or was planned or
/// is recorded.
pub fn planned_steps_are_called_once()
    ensures { (limits : Limits) (inputs : List Input) → CallsPlanned (fold limits inputs) }
{}
