// Which calls are made: within limits, and for no step that is recorded.
ghost use Rattle.kinds.specs.RunSteps.{most_names, names};
ghost use Rattle.kinds.specs.declared.input.Input.{Input};
ghost use Rattle.kinds.specs.declared.limits.Limits.{Limits};
ghost use Rattle.run_model.specs.Machine.{fold, step};
ghost use Rattle.run_model.specs.Settled.{AreItemsNew, CallsNew};
ghost use Rattle.run_model.specs.Sound.{KeepLimits, RecordsOnce, all_runs, numbers_of};
ghost use Rattle.run_model.specs.State.{State, Issue, Run, is_in, issue_entries};
ghost use Rattle.std.specs.List.{AllByRecursion};
ghost use Rattle.std.specs.Prelude.{List, [], ◌≡◌, ◌≤◌, true};

/// In each state that is reached, for each open call and each of its cells, no more calls that were made up to it are
/// open in the cell than the call's limit there.
pub fn limits_are_kept()
    ensures { (limits : Limits) (inputs : List Input)
        → KeepLimits [] (issue_entries (fold limits inputs)) }
{}

/// No queued item is for a step that its run recorded: so it is after each input.
pub fn items_stay_new()
    ensures { (s : State) (input : Input) → AreItemsNew s → AreItemsNew (step s input).state }
{}

/// So no call is made for a step that is recorded, in any history.
pub fn recorded_steps_are_not_called()
    ensures { (limits : Limits) (inputs : List Input) (input : Input) →
        AllByRecursion (CallsNew (step (fold limits inputs) input).state)
        (step (fold limits inputs) input).outs }
{}

/// In each state that is reached, no name of a run that has not ended is recorded twice, and none that is recorded
/// waits.
pub fn steps_are_recorded_once()
    ensures { (limits : Limits) (inputs : List Input)
        → AllByRecursion RecordsOnce (fold limits inputs).live }
{}

/// Nor has a run that is there more names than a thousand.
pub fn runs_have_room_for_names()
    ensures { (limits : Limits) (inputs : List Input) →
        AllByRecursion (λ (r : Run). names r.steps ≤ most_names) (all_runs (fold limits inputs)) }
{}

/// Each open call is of a run that is there: it has not ended, or it has and is kept until its calls end.
pub fn calls_are_of_runs()
    ensures { (limits : Limits) (inputs : List Input) →
        AllByRecursion
        (λ (i : Issue). is_in i.item.run (numbers_of (all_runs (fold limits inputs))) ≡ true)
        (fold limits inputs).issues }
{}
