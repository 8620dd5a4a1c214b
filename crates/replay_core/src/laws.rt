// Laws of the definitions alone.
ghost use Rattle.std.specs.Prelude.{ℕ, ◌≡◌, ◌≤◌, ◌++◌, List, take};
ghost use Rattle.replay_core.specs.Accepted.{accepted_lines};
ghost use Rattle.replay_core.specs.GeneratedLine.{IsKnownLine};
ghost use Rattle.replay_core.specs.Replay.{Progress};

/// What is accepted of a run's first lines is the first part of what is accepted of all.
pub fn accepted_lines_go_on()
    ensures { (progress : Progress) (lines : List (List ℕ)) (count : ℕ) → (more : List (List ℕ)) ×
        (accepted_lines progress lines ≡ accepted_lines progress (take count lines) ++ more) }
{}

/// Of at most 100,000 events all inputs are taken, and the line of [`run_gen`](crate::run_gen) tells of three
/// inputs, two calls and one run for each event, beside the registration, and of no run that is left.
pub fn generated_lines_are_known()
    ensures { (n : ℕ) → n ≤ 100000 → IsKnownLine n }
{
    generator::histories_are_accepted();
    generator::replies_follow();
    generator::histories_end();
}
