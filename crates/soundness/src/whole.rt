// All that holds of each state that is reached, in one.
ghost use Rattle.kinds.specs.declared.input.Input.{Input};
ghost use Rattle.kinds.specs.declared.limits.Limits.{Limits};
ghost use Rattle.run_model.specs.Fit.{IsInRange};
ghost use Rattle.run_model.specs.Laws.{IsFormed};
ghost use Rattle.run_model.specs.Machine.{fold};
ghost use Rattle.run_model.specs.Sound.{IsSound};
ghost use Rattle.std.specs.List.{AllByRecursion};
ghost use Rattle.std.specs.Prelude.{◌<◌, ◌^◌, List};

/// Each state that is reached is sound: all twenty conditions hold of it. The functions of registrations are in their
/// ranges, and none names an id twice: `registry` reads no others. Entries have numbers below 2^64.
pub fn histories_are_sound()
    ensures { (limits : Limits) (inputs : List Input) → AllByRecursion IsInRange inputs →
        AllByRecursion IsFormed inputs → (fold limits inputs).entries < 2 ^ 64
        → IsSound (fold limits inputs) }
{}
