// How long an id is remembered.
ghost use Rattle.std.specs.Prelude.{◌≡◌, ◌-◌, nat_lt};
ghost use Rattle.kinds.specs.Seen.{window};

/// How long an id is remembered, in milliseconds: a day.
const WINDOW: u64 = 86_400_000;

/// Less than a day has passed since an id was accepted. A moment before it counts as inside.
pub(crate) fn is_inside(accepted: u64, moment: u64) -> bool
    ensures { result ≡ nat_lt (moment - accepted) window }
{
    moment.saturating_sub(accepted) < WINDOW
}
