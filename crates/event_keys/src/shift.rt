// The shift of a run by its priority, in whole seconds.
ghost use Rattle.std.specs.Prelude.{◌≡◌, ◌<◌, ◌^◌};
ghost use Rattle.event_keys.specs.Expressions.{clamped, whole, with_sign};

/// The units of one.
const ONE: u128 = 1_000_000_000_000_000_000;

/// The farthest that a run is shifted, in seconds.
const MOST_SHIFT: u128 = 600;

/// The whole number of so many units, and 0 where it isn't whole.
pub(crate) fn whole(units: i128) -> i128
    ensures { result ≡ whole units }
{
    let distance = units.unsigned_abs();
    if distance % ONE == 0 {
        with_sign(units, distance / ONE)
    } else {
        0
    }
}

fn with_sign(units: i128, distance: u128) -> i128
    requires { distance < 2 ^ 127 }
    ensures { result ≡ with_sign units distance }
{
    let number = distance as i128;
    if units < 0 { -number } else { number }
}

/// A number brought into -600 to 600.
pub(crate) fn clamped(number: i128) -> i64
    ensures { result ≡ clamped number }
{
    let distance = number.unsigned_abs().min(MOST_SHIFT) as i64;
    if number < 0 { -distance } else { distance }
}
