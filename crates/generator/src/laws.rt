// What becomes of the generator's inputs.
ghost use Rattle.generator.specs.Accepted.{AreAccepted, HasEnded};
ghost use Rattle.generator.specs.Session.{after_replies, first_open, generated};
ghost use Rattle.run_model.specs.State.{State};
ghost use Rattle.std.specs.Prelude.{ℕ, ◌≡◌, ◌≤◌, ◌+◌, None};

/// Of at most 100,000 events each input is accepted in its turn: the registration, each event, and each reply to the
/// first open call.
pub fn histories_are_accepted()
    ensures { (n : ℕ) → n ≤ 100000 → AreAccepted n }
{}

/// Replies come one after the other, and none where no call is open.
pub fn replies_follow()
    ensures more { (at i first more : ℕ) (s : State) →
        after_replies at i (first + more) s ≡ after_replies at i more (after_replies at i first s) }
    ensures none { (at i count : ℕ) (s : State) → first_open s.issues ≡ None →
        after_replies at i count s ≡ s }
{}

/// And two replies to each run are enough: in the end no run is left and no call is open, and there were three inputs
/// and two calls to each event, and one registration.
pub fn histories_end()
    ensures { (n : ℕ) → n ≤ 100000 → HasEnded n (generated n) }
{}
