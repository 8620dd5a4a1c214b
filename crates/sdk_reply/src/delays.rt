// How long a failed call waits.
ghost use Rattle.std.specs.Prelude.{◌≡◌};
ghost use Rattle.sdk_reply.specs.Delay.{delay, delay_of_attempt};

use kinds::After;

/// The longest delay, in milliseconds: a week.
pub(crate) const LONGEST_DELAY: u64 = 604_800_000;

/// How long a call that failed at an attempt (0 for the first) waits before it is made again, in
/// milliseconds: what the reply says of it, at most a week, or else by the attempt.
pub fn delay(attempt: u8, after: &After, moment: u64) -> u64
    ensures { result ≡ delay attempt after.now moment }
{
    match *after {
        After::None => delay_of_attempt(attempt),
        After::Millis(millis) => millis.min(LONGEST_DELAY),
        After::At(date) => date.saturating_sub(moment).min(LONGEST_DELAY),
    }
}

fn delay_of_attempt(attempt: u8) -> u64
    ensures { result ≡ delay_of_attempt attempt }
{
    match attempt {
        0 => 10_000,
        1 => 30_000,
        2 => 60_000,
        3 => 120_000,
        4 => 300_000,
        5 => 600_000,
        _ => 1_200_000,
    }
}
