// The parts of a JSON number.
ghost use Rattle.std.specs.Prelude.{◌≡◌, ◌<◌, ◌≤◌, length, option_map, IfSome, true, slice_index};
ghost use Rattle.text_num.specs.Digits.{all_digits};
ghost use Rattle.text_num.specs.Seen.{number_seen};
ghost use Rattle.text_num.specs.JsonNumber.{has_minus, behind_sign, is_whole, is_exponent_letter, mark_len, exponent_of, number_of};

use crate::digits::{begins_with, is_number, split_digits, split_fraction};

/// The parts of a JSON number: its digits before the point and behind it, the mark of its exponent (a letter and perhaps
/// a sign), and the exponent's digits.
#[derive(Clone, Copy)]
pub struct Number<'a> {
    pub negative: bool,
    pub whole: &'a [u8],
    pub fraction: &'a [u8],
    pub mark: &'a [u8],
    pub exponent: &'a [u8],
}

impl<'a> Number<'a> {
    pub fn read(text: &'a [u8]) -> Option<Number<'a>>
        ensures value { option_map number_seen result ≡ number_of text.now }
        ensures digits { IfSome result
            (λ n. (all_digits n.whole.now ≡ true) × (all_digits n.fraction.now ≡ true)
            × (all_digits n.exponent.now ≡ true)) }
    {
        let (negative, unsigned) = split_sign(text);
        let (whole, rest) = split_digits(unsigned);
        let (fraction, rest) = split_fraction(rest)?;
        let (mark, exponent) = split_exponent(rest)?;
        if !is_whole(whole) {
            return None;
        }
        Some(Number {
            negative,
            whole,
            fraction,
            mark,
            exponent,
        })
    }
}

fn split_sign(text: &[u8]) -> (bool, &[u8])
    ensures minus { result.0 ≡ has_minus text.now }
    ensures rest { result.1.now ≡ behind_sign text.now }
{
    if begins_with(text, b'-') {
        (true, &text[1..])
    } else {
        (false, text)
    }
}

fn is_whole(digits: &[u8]) -> bool
    ensures { result ≡ is_whole digits.now }
{
    !digits.is_empty() && (digits.len() == 1 || digits[0] != b'0')
}

fn split_exponent(text: &[u8]) -> Option<(&[u8], &[u8])>
    ensures { option_map (λ parts. (parts.0.now, parts.1.now)) result ≡ exponent_of text.now }
{
    if text.is_empty() {
        return Some((text, text));
    }
    if !opens_exponent(text) {
        return None;
    }
    let (mark, digits) = text.split_at(mark_len(text));
    if !is_number(digits) {
        return None;
    }
    Some((mark, digits))
}

fn opens_exponent(text: &[u8]) -> bool
    ensures { result ≡ is_exponent_letter (slice_index text.now 0) }
{
    begins_with(text, b'e') || begins_with(text, b'E')
}

/// The length of an exponent's letter, with the sign that may follow it.
fn mark_len(text: &[u8]) -> usize
    requires { 0 < length text.now }
    ensures value { result ≡ mark_len text.now }
    ensures fits { result ≤ length text.now }
{
    if text.len() > 1 && (text[1] == b'+' || text[1] == b'-') {
        2
    } else {
        1
    }
}
