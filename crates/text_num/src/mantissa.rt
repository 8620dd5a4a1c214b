// Digits as a number and its trailing zeros.
ghost use Rattle.std.specs.Prelude.{◌≡◌, ◌≤◌, ◌<◌, ◌+◌, ◌-◌, ◌*◌, ◌^◌, ℕ, length, true, Some, None, IfSome, nat_lt, if◌then◌else◌};
ghost use Rattle.text_num.specs.Digits.{decimal_value, all_digits};
ghost use Rattle.text_num.specs.Mantissa.{IsMantissa, IsReading};
ghost use Rattle.text_num.specs.Units.{multiple_of};

/// 10^38: what reaches it is too long.
const LIMIT: u128 = 100_000_000_000_000_000_000_000_000_000_000_000_000;

/// A number as a value that doesn't end in 0, with the zeros behind it (10 for each), so that a long run of zeros costs
/// nothing until a further digit shows that they count.
#[derive(Clone, Copy)]
pub struct Mantissa {
    value: u128,
    zeros: u128,
}

impl Mantissa {
    pub fn zero() -> Mantissa
        ensures value { IsMantissa 0 result }
        ensures zeros { result.zeros ≡ 0 }
    {
        Mantissa { value: 0, zeros: 0 }
    }

    /// The number with digits behind it, or `None` where it has more than 38 that count.
    pub fn push_all(self, digits: &[u8]) -> Option<Mantissa>
        requires digits { all_digits digits.now ≡ true }
        requires zeros { self.zeros ≤ 2 ^ 64 }
        ensures number { (number : ℕ) → IsMantissa number self
            → IsReading (number * 10 ^ length digits.now + decimal_value digits.now) result }
        ensures zeros { IfSome result (λ m. m.zeros ≤ self.zeros + length digits.now) }
    {
        let mut mantissa = self;
        for digit in digits {
            mantissa = mantissa.push(*digit)?;
        }
        Some(mantissa)
    }

    fn push(self, digit: u8) -> Option<Mantissa>
        requires low { 48 ≤ digit }
        requires high { digit ≤ 57 }
        requires zeros { self.zeros ≤ 2 ^ 66 }
        ensures number { (number : ℕ) → IsMantissa number self
            → IsReading (number * 10 + (digit - 48)) result }
        ensures zeros { IfSome result (λ m. m.zeros ≤ self.zeros + 1) }
    {
        if digit == b'0' {
            let zeros = if self.value == 0 { 0 } else { self.zeros + 1 };
            return Some(Mantissa { zeros, ..self });
        }
        let shifted = times_power(self.value, self.zeros + 1)?;
        Some(Mantissa {
            value: shifted + u128::from(digit - b'0'),
            zeros: 0,
        })
    }

    /// The number times 10^`up` and divided by 10^`down`, where that is whole and below 10^38.
    pub fn shifted(self, up: u128, down: u128) -> Option<u128>
        requires zeros { self.zeros ≤ 2 ^ 66 }
        requires up { up ≤ 2 ^ 101 }
        ensures { (number : ℕ) → IsMantissa number self → result ≡ multiple_of number up down }
    {
        if self.value == 0 {
            return Some(0);
        }
        let zeros = (self.zeros + up).checked_sub(down)?;
        times_power(self.value, zeros)
    }
}

/// The value with zeros behind it, where that is below 10^38.
fn times_power(value: u128, zeros: u128) -> Option<u128>
    ensures { result
        ≡ (if nat_lt (value * 10 ^ zeros) (10 ^ 38) then Some (value * 10 ^ zeros) else None) }
{
    if value == 0 {
        return Some(0);
    }
    if zeros >= 38 {
        return None;
    }
    let number = value.checked_mul(10u128.pow(zeros as u32))?;
    if number < LIMIT { Some(number) } else { None }
}
