// Whole numbers.
ghost use Rattle.std.specs.Prelude.{◌≡◌, ◌≤◌, ◌<◌, ◌^◌, ◌==◌, min, true, option_map, slice_index, length};
ghost use Rattle.text_num.specs.Digits.{decimal_value, all_digits, is_number, u64_of, digits_front, behind_digits, fraction_of};

use crate::NumFault;

/// The whole number that decimal digits write; leading zeros count for nothing. `NotANumber` where the text is empty or has
/// another byte (a sign, a space), and `OutOfRange` where the number is above 2^64 - 1.
pub fn read_u64(text: &[u8]) -> Result<u64, NumFault>
    ensures { result ≡ u64_of text.now }
{
    if !is_number(text) {
        return Err(NumFault::NotANumber);
    }
    let number = number_up_to(text, 1 << 64);
    if number > u128::from(u64::MAX) {
        return Err(NumFault::OutOfRange);
    }
    Ok(number as u64)
}

/// Whether a text is one digit or more, and nothing else.
pub fn is_number(text: &[u8]) -> bool
    ensures { result ≡ is_number text.now }
{
    !text.is_empty() && text.iter().all(|byte| byte.is_ascii_digit())
}

/// The number that digits write, or `cap` where it is greater.
pub fn number_up_to(digits: &[u8], cap: u128) -> u128
    requires digits { all_digits digits.now ≡ true }
    requires cap { cap ≤ 2 ^ 100 }
    ensures { result ≡ min (decimal_value digits.now) cap }
{
    let mut number = 0;
    for digit in digits {
        number = (number * 10 + u128::from(*digit - b'0')).min(cap);
    }
    number
}

/// The digits at the front of a text, and what follows them.
pub fn split_digits(text: &[u8]) -> (&[u8], &[u8])
    ensures digits { result.0.now ≡ digits_front text.now }
    ensures rest { result.1.now ≡ behind_digits text.now }
{
    text.split_at(count_digits(text))
}

fn count_digits(text: &[u8]) -> usize
    ensures { result ≡ length (digits_front text.now) }
{
    let end = text.iter().position(|byte| !byte.is_ascii_digit());
    end.unwrap_or(text.len())
}

/// Whether a text begins with a byte other than 0.
pub fn begins_with(text: &[u8], byte: u8) -> bool
    requires { 0 < byte }
    ensures { result ≡ (slice_index text.now 0 == byte) }
{
    text.first() == Some(&byte)
}

/// The digits of the fraction at the front of a text, and what follows them.
pub fn split_fraction(text: &[u8]) -> Option<(&[u8], &[u8])>
    ensures { option_map (λ parts. (parts.0.now, parts.1.now)) result ≡ fraction_of text.now }
{
    if !begins_with(text, b'.') {
        return Some((&text[..0], text));
    }
    let (digits, rest) = split_digits(&text[1..]);
    if digits.is_empty() {
        return None;
    }
    Some((digits, rest))
}
