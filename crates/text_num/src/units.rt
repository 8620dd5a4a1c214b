// JSON numbers in units of 10^-18, read and written.
ghost use Rattle.std.specs.Prelude.{◌≡◌, ◌⊎◌, ◌<◌, ◌≤◌, ◌^◌, ◌++◌, ◌+◌, ◌==◌, slice_index, ℕ, ℤ, List, [], length, take, drop, unsigned_abs, IfOk, Ok, Err, true, decimal};
ghost use Rattle.text_num.specs.Seen.{number_seen};
ghost use Rattle.std.specs.Int.{is_negative};
ghost use Rattle.text_num.specs.JsonNumber.{JsonNumber, IsJsonNumber, sign_text};
ghost use Rattle.text_num.specs.Digits.{fraction_text, all_digits};
ghost use Rattle.text_num.specs.Units.{units_of_number, units_of, units_text, magnitude_of, signed, fraction_digits};
ghost use Rattle.text_num.specs.declared.fault.NumFault.TheVariants.{NotANumber};

use crate::NumFault;
use crate::digits::number_up_to;
use crate::mantissa::Mantissa;
use crate::number::Number;

/// 10^18: the units of one.
const ONE: u128 = 1_000_000_000_000_000_000;
/// More than any length of a text, so that an exponent as great decides alone.
const GREAT_EXPONENT: u128 = 1 << 100;

/// A JSON number (RFC 8259, section 6) as a multiple of 10^-18. `NotANumber` where the text is no JSON number, and
/// `OutOfRange` where the number is no whole multiple or its absolute value isn't below 10^20.
pub fn read_units(text: &[u8]) -> Result<i128, NumFault>
    ensures value { result ≡ units_of text.now }
    // any number that writes the text gives the value ..
    ensures units { (number : JsonNumber) → IsJsonNumber text.now number
        → result ≡ units_of_number number }
    // .. and where there is none, it isn't a number
    ensures number { (result ≡ Err NotANumber) ⊎ ((number : JsonNumber) × IsJsonNumber text.now number) }
    ensures bound { IfOk result (λ units. unsigned_abs units < 10 ^ 38) }
{
    let Some(number) = Number::read(text) else {
        return Err(NumFault::NotANumber);
    };
    match magnitude(number) {
        Some(magnitude) => Ok(signed(number.negative, magnitude)),
        None => Err(NumFault::OutOfRange),
    }
}

fn signed(negative: bool, magnitude: u128) -> i128
    requires { magnitude < 10 ^ 38 }
    ensures { result ≡ signed negative magnitude }
{
    if negative {
        -(magnitude as i128)
    } else {
        magnitude as i128
    }
}

/// The units of a number without their sign, where they are whole and below 10^38.
fn magnitude(number: Number) -> Option<u128>
    requires whole { all_digits number.whole.now ≡ true }
    requires fraction { all_digits number.fraction.now ≡ true }
    requires exponent { all_digits number.exponent.now ≡ true }
    ensures { result ≡ magnitude_of (number_seen number.entry) }
{
    let places = number.fraction.len() as u128;
    let whole = Mantissa::zero().push_all(number.whole)?;
    let mantissa = whole.push_all(number.fraction)?;
    let exponent = number_up_to(number.exponent, GREAT_EXPONENT);
    if has_minus(number.mark) {
        mantissa.shifted(18, places + exponent)
    } else {
        mantissa.shifted(18 + exponent, places)
    }
}

/// Whether the mark of an exponent ends in a minus.
fn has_minus(mark: &[u8]) -> bool
    ensures { result ≡ (slice_index mark.now 1 == 45) }
{
    mark.len() > 1 && mark[1] == b'-'
}

/// Writes the shortest decimal of a multiple of 10^-18 to the front of `out`, and gives its length: an optional minus,
/// digits, and where the number isn't whole a point and digits up to the last that isn't 0. No other text without an
/// exponent is as short (with one, `1e18` is shorter than its nineteen digits). The rest of `out` stays.
pub fn put_units(units: i128, out: &mut [u8; 64]) -> usize
    requires { unsigned_abs units < 10 ^ 38 }
    ensures text { out.new ≡ units_text units ++ drop (length (units_text units)) out.old }
    ensures len { result ≡ length (units_text units) }
    ensures read_back { units_of (units_text units) ≡ Ok units }
    // each other number without an exponent that is worth the same has a longer text
    ensures shortest { (text : List ℕ) (number : JsonNumber) → IsJsonNumber text number
        → number.mark ≡ [] →
        units_of_number number ≡ Ok units → (text ≡ units_text units)
        ⊎ (length (units_text units) < length text) }
{
    let magnitude = units.unsigned_abs();
    let at = put_sign(units, out);
    let at = put_whole(magnitude / ONE, out, at);
    put_fraction(magnitude % ONE, out, at)
}

fn put_sign(units: i128, out: &mut [u8; 64]) -> usize
    ensures text { let sign = sign_text (is_negative units)
        in out.new ≡ sign ++ drop (length sign) out.old }
    ensures end { result ≡ length (sign_text (is_negative units)) }
{
    if units.is_negative() {
        out[0] = b'-';
        1
    } else {
        0
    }
}

fn put_whole(whole: u128, out: &mut [u8; 64], at: usize) -> usize
    requires whole { whole < 10 ^ 20 }
    requires room { at ≤ 1 }
    ensures text { out.new ≡ take at out.old ++ decimal whole
        ++ drop (at + length (decimal whole)) out.old }
    ensures end { result ≡ at + length (decimal whole) }
{
    let mut buffer = itoa::Buffer::new();
    let digits = buffer.format(whole).as_bytes();
    let end = at + digits.len();
    out[at..end].copy_from_slice(digits);
    end
}

fn put_fraction(fraction: u128, out: &mut [u8; 64], at: usize) -> usize
    requires fraction { fraction < 10 ^ 18 }
    requires room { at ≤ 21 }
    ensures text { let digits = fraction_text (fraction_digits 18 fraction) in
        out.new ≡ take at out.old ++ digits ++ drop (at + length digits) out.old }
    ensures end { result ≡ at + length (fraction_text (fraction_digits 18 fraction)) }
{
    if fraction == 0 {
        return at;
    }
    out[at] = b'.';
    let mut at = at + 1;
    let mut rest = fraction;
    let mut places = 18;
    while rest > 0 {
        places -= 1;
        let place = 10u128.pow(places);
        out[at] = b'0' + (rest / place) as u8;
        rest %= place;
        at += 1;
    }
    at
}
