// What holds of whole histories: runs have the numbers that were given, and what a run recorded stays.
ghost use Rattle.functions.specs.declared.entry.FunctionEntry.{FunctionEntry};
ghost use Rattle.kinds.specs.RunSteps.{result_of};
ghost use Rattle.kinds.specs.declared.input.Input.{Input};
ghost use Rattle.kinds.specs.declared.limits.Limits.{Limits};
ghost use Rattle.run_model.specs.Fit.{RunsStandOnce};
ghost use Rattle.run_model.specs.Laws.{AreCounted, Follows, HasFunctions, IsFormed, IsNoRegistration};
ghost use Rattle.run_model.specs.Machine.{fold, step};
ghost use Rattle.run_model.specs.Sound.{AreApart, AreOfLive, IsNumbered, IsReached, KeepsNamed, StandsOnce};
ghost use Rattle.run_model.specs.State.{State, Run, live_run};
ghost use Rattle.std.specs.List.{AllByRecursion};
ghost use Rattle.std.specs.Prelude.{ℕ, List, ◌≡◌, ◌++◌, Some};

/// Each run that has not ended has one of the numbers that were given to runs, so no new run takes it.
pub fn numbers_are_counted()
    ensures { (limits : Limits) (inputs : List Input) → AreCounted (fold limits inputs) }
{}

/// From any state where this is so, it is so after each input.
pub fn numbers_stay_counted()
    ensures { (s : State) (input : Input) → AreCounted s → AreCounted (step s input).state }
{}

/// What a run recorded before an input, it has recorded after it, in front and as it was, where the run has
/// not ended: an input adds steps behind those before, takes none away and changes none.
pub fn recorded_only_grows()
    ensures { (s : State) (input : Input) → AreCounted s → (number : ℕ) (before after : Run) →
        live_run number s ≡ Some before → live_run number (step s input).state ≡ Some after →
        Follows before.steps.recorded after.steps.recorded }
{}

/// The result that a run recorded for a step is its result of this step after all further inputs, byte for
/// byte, while the run has not ended.
pub fn recorded_steps_stay()
    ensures { (limits : Limits) (inputs more : List Input) (number : ℕ) (before after : Run) →
        live_run number (fold limits inputs) ≡ Some before →
        live_run number (fold limits (inputs ++ more)) ≡ Some after →
        (name text : List ℕ) → result_of name before.steps ≡ Some text →
        result_of name after.steps ≡ Some text }
{}

/// The current functions, and the count of versions, change by registrations alone.
pub fn only_registrations_change_functions()
    ensures { (s : State) (input : Input) → IsNoRegistration input →
        HasFunctions s.versions s.functions (step s input).state }
{}

/// The numbers of runs that are there differ, and no run ends twice, or has ended and not: so it is after each input.
pub fn runs_keep_standing_once()
    ensures { (s : State) (input : Input) → RunsStandOnce s → RunsStandOnce (step s input).state }
{}

/// So it is in each state that is reached.
pub fn runs_stand_once()
    ensures { (limits : Limits) (inputs : List Input) → RunsStandOnce (fold limits inputs) }
{}

/// In each state that is reached, each queued item, sleep, wait, invocation and rule is of a run that has not ended.
pub fn what_waits_is_of_live_runs()
    ensures { (limits : Limits) (inputs : List Input) → AreOfLive (fold limits inputs) }
{}

/// The numbers of each list rise, versions as well, and are at most their count; windows stand by kind and number.
pub fn numbers_rise()
    ensures { (limits : Limits) (inputs : List Input) → IsNumbered (fold limits inputs) }
{}

/// Whatever is registered, no two current functions have one id, where no registration names one twice.
pub fn current_functions_have_own_ids()
    ensures { (limits : Limits) (inputs : List Input) → AllByRecursion IsFormed inputs →
        AreApart (λ (f : FunctionEntry). f.function.id) (fold limits inputs).functions }
{}

/// What the other laws say of each state that is reached, in one: whatever inputs there were.
pub fn what_holds_of_reached_states()
    ensures { (limits : Limits) (inputs : List Input) → IsReached (fold limits inputs) }
{}

/// What is there is named: by a run, a window or an open call, or it is among the last thousand runs that ended.
pub fn what_is_there_is_named()
    ensures { (limits : Limits) (inputs : List Input) → KeepsNamed (fold limits inputs) }
{}

/// Each stands in one place: a version is current or retired, and a run has ended once or not at all.
pub fn each_stands_once()
    ensures { (limits : Limits) (inputs : List Input) → StandsOnce (fold limits inputs) }
{}
