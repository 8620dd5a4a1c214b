// What a reading of the clock does before the next moment, and what is left at the end of a step.
ghost use Rattle.kinds.specs.declared.input.Input.{Input};
ghost use Rattle.kinds.specs.declared.input.Input.TheVariants.{Tick};
ghost use Rattle.kinds.specs.declared.limits.Limits.{Limits};
ghost use Rattle.run_model.specs.Fit.{IsInRange};
ghost use Rattle.run_model.specs.Laws.{OnlyTimePasses};
ghost use Rattle.run_model.specs.Machine.{count_input, fold, step};
ghost use Rattle.run_model.specs.Next.{next_moment};
ghost use Rattle.run_model.specs.Settle.{next_issued};
ghost use Rattle.run_model.specs.Sound.{AreTimely, all_runs};
ghost use Rattle.run_model.specs.State.{State, Run, at_moment, moment_at, tidied};
ghost use Rattle.std.specs.List.{AllByRecursion};
ghost use Rattle.std.specs.Prelude.{ℕ, List, [], ◌≡◌, ◌<◌, ◌≤◌, ◌^◌, IfSome, None};

/// Nothing happens before the next moment, where no item may be issued and nothing is left that goes at the end of a
/// step: a reading of the clock that comes earlier lets time go on, and nothing is said.
pub fn only_time_passes_before_the_next_moment()
    ensures { (s : State) (at : ℕ) → next_issued s ≡ None → tidied s ≡ s
        → IfSome (next_moment s) (λ n. moment_at at s < n)
        → step s (Tick at) ≡ record { state = at_moment (moment_at at s) (count_input s); outs = [] } }
{}

/// After each input nothing is left that goes at the end of a step.
pub fn steps_are_tidied()
    ensures { (s : State) (input : Input) → tidied (step s input).state ≡ (step s input).state }
{}

/// So in each state that is reached nothing happens before the next moment: an earlier reading of the clock lets
/// time go on, and nothing is said.
pub fn nothing_happens_before_the_next_moment()
    ensures { (limits : Limits) (inputs : List Input) (at : ℕ) → OnlyTimePasses (fold limits inputs) at }
{}

/// In each state that is reached nothing is overdue, while entries have numbers below 2^64: what falls due by an input's
/// moment happens in its step.
pub fn nothing_is_overdue()
    ensures { (limits : Limits) (inputs : List Input) → AllByRecursion IsInRange inputs →
        (fold limits inputs).entries < 2 ^ 64 → AreTimely (fold limits inputs) }
{}

/// Nor is a run that is there dated after the moment.
pub fn runs_are_dated()
    ensures { (limits : Limits) (inputs : List Input) → AllByRecursion IsInRange inputs →
        (fold limits inputs).entries < 2 ^ 64 →
        AllByRecursion (λ (r : Run). r.moment ≤ (fold limits inputs).moment)
        (all_runs (fold limits inputs)) }
{}
