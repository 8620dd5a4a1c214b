// What is called: in each state that is reached.
ghost use Rattle.kinds.specs.declared.input.Input.{Input};
ghost use Rattle.kinds.specs.declared.limits.Limits.{Limits};
ghost use Rattle.run_model.specs.Machine.{fold};
ghost use Rattle.run_model.specs.Sound.{Discovers, IsFresh, IsUnrecorded};
ghost use Rattle.std.specs.List.{AllByRecursion};
ghost use Rattle.std.specs.Prelude.{List};

/// A run without a call so far has no step, neither recorded nor planned nor pending, and no open call.
pub fn runs_without_a_call_are_fresh()
    ensures { (limits : Limits) (inputs : List Input) →
        AllByRecursion (IsFresh (fold limits inputs)) (fold limits inputs).live }
{}

/// A run that is there has at most one item or open call that finds out what comes next, and one that has not ended has
/// exactly one where it is to find that out.
pub fn runs_find_out_once()
    ensures { (limits : Limits) (inputs : List Input) → Discovers (fold limits inputs) }
{}

/// The target of a queued item isn't recorded in its run, also where the item finds out what comes next: no step that a
/// reply names has this target as its name.
pub fn items_are_unrecorded()
    ensures { (limits : Limits) (inputs : List Input) →
        AllByRecursion (IsUnrecorded (fold limits inputs)) (fold limits inputs).items }
{}
