// What is remembered, and the moment: in each state that is reached.
ghost use Rattle.kinds.specs.declared.input.Input.{Input};
ghost use Rattle.kinds.specs.declared.limits.Limits.{Limits};
ghost use Rattle.run_model.specs.Machine.{fold};
ghost use Rattle.run_model.specs.Sound.{HasEvents, IsDated, RemembersOnce};
ghost use Rattle.std.specs.Prelude.{List};

/// No two remembered ids are equal. They stand by number, and each is of an event that was numbered, not after the
/// moment, and tells a repeated event still.
pub fn ids_are_remembered_once()
    ensures { (limits : Limits) (inputs : List Input) → RemembersOnce (fold limits inputs) }
{}

/// No moment is after the last that a clock may read, and what has happened isn't after the moment.
pub fn what_happened_is_dated()
    ensures { (limits : Limits) (inputs : List Input) → IsDated (fold limits inputs) }
{}

/// Each run and each window names an event.
pub fn runs_have_events()
    ensures { (limits : Limits) (inputs : List Input) → HasEvents (fold limits inputs) }
{}
