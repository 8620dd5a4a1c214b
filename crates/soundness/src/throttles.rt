// Throttles over whole histories, and the greatest of the counts.
ghost use Rattle.kinds.specs.declared.cell.Cell.{Cell};
ghost use Rattle.kinds.specs.declared.input.Input.{Input};
ghost use Rattle.kinds.specs.declared.limits.Limits.{Limits};
ghost use Rattle.run_model.specs.Machine.{fold, step};
ghost use Rattle.run_model.specs.Sound.{IsNumbered};
ghost use Rattle.run_model.specs.State.{State, greatest};
ghost use Rattle.soundness.specs.Starts.{AreLet, AreNumberedFrom, AreUpTo, IsMade, KeepsPace, TellsOf, counted_to, counts_of, made, made_in, starts};
ghost use Rattle.std.specs.List.{AllByRecursion};
ghost use Rattle.std.specs.Prelude.{◌≡◌, List, length};

/// Whatever inputs there were, all starts of a throttle's cell keep to its limit, period and burst: of any two, the
/// later is no sooner than the starts from the earlier on allow.
pub fn throttles_hold()
    ensures { (limits : Limits) (inputs : List Input) (cell : Cell)
        → KeepsPace cell (starts limits inputs cell) }
{}

/// The same as a throttle is asked: each start was let by all starts before it.
pub fn starts_are_let()
    ensures { (limits : Limits) (inputs : List Input) (cell : Cell)
        → AreLet cell (starts limits inputs cell) }
{}

/// What a state keeps of a cell is enough: its one number stands for all starts there were, or it has none, and then
/// the starts let the next at the state's moment and at each later one.
pub fn entries_tell_of_starts()
    ensures { (limits : Limits) (inputs : List Input) (cell : Cell) →
        TellsOf (fold limits inputs) cell (starts limits inputs cell) }
{}

/// The calls that starts are taken from are all calls of a history: they are numbered one after the other, and the last
/// number is the state's count.
pub fn made_calls_are_numbered()
    ensures numbers { (limits : Limits) (inputs : List Input) → AreNumberedFrom 0 (made limits inputs) }
    ensures count { (limits : Limits) (inputs : List Input) →
        (fold limits inputs).calls ≡ length (made limits inputs) }
{}

/// Each call that is said is one of them, with its run, target and attempt.
pub fn said_calls_are_made()
    ensures { (s : State) (input : Input) →
        AllByRecursion (IsMade (made_in s input)) (step s input).outs }
{}

/// No count is over the greatest, nor is any number that is bounded by a count.
pub fn nothing_is_over_the_greatest()
    ensures counts { (s : State) → AreUpTo (greatest s) (counts_of s) }
    ensures numbers { (limits : Limits) (inputs : List Input) →
        IsNumbered (counted_to (greatest (fold limits inputs)) (fold limits inputs)) }
{}
