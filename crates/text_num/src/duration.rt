// Durations.
ghost use Rattle.std.specs.Prelude.{◌≡◌, ◌≤◌, ◌⊎◌, ◌+◌, List, length, true, min, option_map, Err};
ghost use Rattle.text_num.specs.Digits.{is_number, all_digits, at_most};
ghost use Rattle.text_num.specs.Duration.{Part, IsDuration, part_millis, parts_millis, unit_millis, unit_of_letter, is_milli, unit_of, part_of, capped_part, duration_of, longest};
ghost use Rattle.text_num.specs.declared.fault.NumFault.TheVariants.{NotANumber};

use crate::NumFault;
use crate::digits::{begins_with, number_up_to, split_digits, split_fraction};

/// 366 days in milliseconds.
const LONGEST: u64 = 31_622_400_000;

/// What the number of a part counts.
#[derive(Clone, Copy, Debug, PartialEq, Eq)]
pub enum TimeUnit {
    Week,
    Day,
    Hour,
    Minute,
    Second,
    Milli,
}

impl TimeUnit {
    fn of_letter(letter: u8) -> Option<TimeUnit>
        ensures { result ≡ unit_of_letter letter }
    {
        match letter {
            b'w' => Some(TimeUnit::Week),
            b'd' => Some(TimeUnit::Day),
            b'h' => Some(TimeUnit::Hour),
            b'm' => Some(TimeUnit::Minute),
            b's' => Some(TimeUnit::Second),
            _ => None,
        }
    }

    fn millis(self) -> u64
        ensures value { result ≡ unit_millis self }
        ensures some { 1 ≤ result }
        ensures week { result ≤ 604800000 }
    {
        match self {
            TimeUnit::Week => 604_800_000,
            TimeUnit::Day => 86_400_000,
            TimeUnit::Hour => 3_600_000,
            TimeUnit::Minute => 60_000,
            TimeUnit::Second => 1_000,
            TimeUnit::Milli => 1,
        }
    }
}

/// The milliseconds of a duration as `1h30m` or `1.5s`: one part or more, each digits, optionally a point with one to nine
/// digits, and a unit (`w`, `d`, `h`, `m`, `s` or `ms`). Each part is rounded down to a millisecond, and the parts are
/// added, in any order and with units repeated. `NotANumber` where the text isn't that, and `OutOfRange` where the sum is
/// above 366 days.
pub fn read_duration(text: &[u8]) -> Result<u64, NumFault>
    ensures value { result ≡ duration_of text.now }
    // any parts that write the text give the value ..
    ensures sum { (parts : List Part) → IsDuration text.now parts
        → result ≡ at_most longest (parts_millis parts) }
    // .. and where there are none, it isn't a number
    ensures parts { (result ≡ Err NotANumber) ⊎ ((parts : List Part) × IsDuration text.now parts) }
{
    if text.is_empty() {
        return Err(NumFault::NotANumber);
    }
    let mut rest = text;
    let mut total = 0;
    while !rest.is_empty() {
        let Some((millis, after)) = read_part(rest) else {
            return Err(NumFault::NotANumber);
        };
        total = (total + millis).min(LONGEST + 1);
        rest = after;
    }
    if total > LONGEST {
        return Err(NumFault::OutOfRange);
    }
    Ok(total)
}

/// The milliseconds of the part at the front of a text, or `LONGEST + 1` where they are more, and what follows the part.
fn read_part(text: &[u8]) -> Option<(u64, &[u8])>
    ensures { option_map capped_part (part_of text.now)
        ≡ option_map (λ part. (part.0, part.1.now)) result }
{
    let (whole, rest) = split_digits(text);
    let (fraction, rest) = split_fraction(rest)?;
    let (unit, rest) = split_unit(rest)?;
    if whole.is_empty() {
        return None;
    }
    if fraction.len() > 9 {
        return None;
    }
    Some((part_millis(whole, fraction, unit), rest))
}

fn split_unit(text: &[u8]) -> Option<(TimeUnit, &[u8])>
    ensures { option_map (λ unit. (unit.0, unit.1.now)) result ≡ unit_of text.now }
{
    let (letter, rest) = text.split_first()?;
    if is_milli(*letter, rest) {
        return Some((TimeUnit::Milli, &rest[1..]));
    }
    Some((TimeUnit::of_letter(*letter)?, rest))
}

fn is_milli(letter: u8, rest: &[u8]) -> bool
    ensures { result ≡ is_milli letter rest.now }
{
    letter == b'm' && begins_with(rest, b's')
}

fn part_millis(whole: &[u8], fraction: &[u8], unit: TimeUnit) -> u64
    requires whole { all_digits whole.now ≡ true }
    requires fraction { all_digits fraction.now ≡ true }
    requires short { length fraction.now ≤ 9 }
    ensures { result
        ≡ min (part_millis record { whole = whole.now; fraction = fraction.now; unit = unit })
        (longest + 1) }
{
    let over = u128::from(LONGEST) + 1;
    let scale = 10u128.pow(fraction.len() as u32);
    let number = number_up_to(whole, over) * scale + number_up_to(fraction, scale);
    (number * u128::from(unit.millis()) / scale).min(over) as u64
}
