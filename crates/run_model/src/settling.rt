// What holds at the end of each step, where calls were made while an item might be issued.
ghost use Rattle.kinds.specs.declared.input.Input.{Input};
ghost use Rattle.run_model.specs.Machine.{step};
ghost use Rattle.run_model.specs.Settle.{next_issued};
ghost use Rattle.run_model.specs.Settled.{SendsRecorded};
ghost use Rattle.run_model.specs.State.{State};
ghost use Rattle.std.specs.List.{AllByRecursion};
ghost use Rattle.std.specs.Prelude.{◌≡◌, None};

/// No call waits that could be made: after each input, every queued item is either not due yet, or a cell of it
/// is full, or its throttle doesn't let it start.
pub fn nothing_admissible_is_left()
    ensures { (s : State) (input : Input) → next_issued (step s input).state ≡ None }
{}

/// Each call that an input brings about is of a run that has not ended, and sends all of its recorded results,
/// in order of recording and byte for byte as they were recorded, with the texts of all its events.
pub fn calls_send_all_that_is_recorded()
    ensures { (s : State) (input : Input) →
        AllByRecursion (SendsRecorded (step s input).state) (step s input).outs }
{}
