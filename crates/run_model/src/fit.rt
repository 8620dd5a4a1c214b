// What holds in the midst of a step and the code needs: it holds of each state that is reached.
ghost use Rattle.kinds.specs.declared.input.Input.{Input};
ghost use Rattle.kinds.specs.declared.limits.Limits.{Limits};
ghost use Rattle.run_model.specs.Fit.{IsFit, IsInRange};
ghost use Rattle.run_model.specs.Machine.{fold, step};
ghost use Rattle.run_model.specs.Sound.{HasWindows, IsFixed};
ghost use Rattle.run_model.specs.State.{State, empty};
ghost use Rattle.std.specs.List.{AllByRecursion};
ghost use Rattle.std.specs.Prelude.{List};

/// The state before the first input is fit: no number is over its count, each bucket is its condition's, windows
/// have room, and all is in its range.
pub fn empty_is_fit()
    ensures { (limits : Limits) → IsFit (empty limits) }
{}

/// A fit state is fit after each input, where a registration's functions are in their ranges.
pub fn steps_stay_fit()
    ensures { (s : State) (input : Input) → IsInRange input → IsFit s → IsFit (step s input).state }
{}

/// So each state that such inputs reach is fit.
pub fn histories_are_fit()
    ensures { (limits : Limits) (inputs : List Input) → AllByRecursion IsInRange inputs →
        IsFit (fold limits inputs) }
{}

/// In each of these no two windows are of one version and value, and the function of each window has a rule for windows
/// of its kind: a batch has room, and a debounce is due by its timeout.
pub fn windows_have_rules()
    ensures { (limits : Limits) (inputs : List Input) → AllByRecursion IsInRange inputs →
        HasWindows (fold limits inputs) }
{}

/// And each run and each window names an event, and a run's cells and throttle are those that its function gives for
/// the text of its first event.
pub fn runs_are_fixed()
    ensures { (limits : Limits) (inputs : List Input) → AllByRecursion IsInRange inputs →
        IsFixed (fold limits inputs) }
{}
