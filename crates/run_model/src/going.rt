// What waits and what goes on: in each state that is reached.
ghost use Rattle.kinds.specs.declared.input.Input.{Input};
ghost use Rattle.kinds.specs.declared.limits.Limits.{Limits};
ghost use Rattle.run_model.specs.Machine.{fold};
ghost use Rattle.run_model.specs.Making.{has_discovery};
ghost use Rattle.run_model.specs.Sound.{AwaitsOnce, Invokes, Wakes, can_go_on};
ghost use Rattle.run_model.specs.State.{Run};
ghost use Rattle.std.specs.List.{AllByRecursion};
ghost use Rattle.std.specs.Prelude.{List, ◌≡◌, true};

/// Each pending name of a run that has not ended has one sleep, wait or invocation, of its kind, and each of these is
/// of a pending name.
pub fn what_waits_is_pending()
    ensures { (limits : Limits) (inputs : List Input) → AwaitsOnce (fold limits inputs) }
{}

/// What falls due is recorded: the run of each sleep, wait and invocation has not ended, and its step waits still.
pub fn what_falls_due_is_recorded()
    ensures { (limits : Limits) (inputs : List Input) → Wakes (fold limits inputs) }
{}

/// A run that is to find out what comes next has an item or an open call for it.
pub fn wanted_runs_find_out()
    ensures { (limits : Limits) (inputs : List Input) →
        AllByRecursion
        (λ (r : Run). r.wanted ≡ true → has_discovery (fold limits inputs) r.number ≡ true)
        (fold limits inputs).live }
{}

/// Each run that has not ended can go on: it has a queued item, an open call, or a step that waits for something.
pub fn live_runs_can_go_on()
    ensures { (limits : Limits) (inputs : List Input) →
        AllByRecursion (λ r. can_go_on (fold limits inputs) r ≡ true) (fold limits inputs).live }
{}

/// The step of an invoked run's parent is recorded, or waits for it, where the parent has not ended; and the child of
/// each invocation is a run that has not ended, whose parent is the invocation's run and step.
pub fn invocations_have_children()
    ensures { (limits : Limits) (inputs : List Input) → Invokes (fold limits inputs) }
{}
