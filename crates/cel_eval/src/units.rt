// Numbers within the range of expressions.
ghost use Rattle.std.specs.Prelude.{◌≡◌, ◌≢◌, ◌<◌, ◌^◌, ◌/◌, ◌*◌, ◌*ℤ◌, int_div, neg_ℤ, unsigned_abs, pos, int_lt, int_le};
ghost use Rattle.std.specs.Ordering.{int_eq};
ghost use Rattle.cel_eval.specs.Data.{in_units};
ghost use Rattle.cel_eval.specs.Operations.{one, is_whole, sum, difference, product, quotient, remainder, unless_zero};

use crate::EvalFault;
use std::marker::Model;

/// 10^18: the units of one.
const ONE: i128 = 1_000_000_000_000_000_000;
/// No number reaches this many units.
const LIMIT: u128 = 100_000_000_000_000_000_000_000_000_000_000_000_000;

/// A multiple of 10^-18 below 10^20 in absolute value. Contracts see it as the count of its units.
#[derive(Clone, Copy)]
pub(crate) struct Units {
    units: i128,
}

impl Model for Units {
    ghost use Rattle.std.specs.Prelude.{ℤ, ◌<◌, ◌^◌, unsigned_abs};

    ghost Value = { ℤ };

    ghost view = { λ u. u.units };

    ghost inverse = { λ n. record { units = n } };

    ghost invariant = { λ u. unsigned_abs u.units < 10 ^ 38 };
}

impl Units {
    pub(crate) fn new(units: i128) -> Result<Self, EvalFault>
        ensures { result ≡ in_units units }
    {
        if units.unsigned_abs() < LIMIT {
            Ok(Units { units })
        } else {
            Err(EvalFault::Range)
        }
    }

    pub(crate) fn get(self) -> i128
        ensures value { result ≡ self }
        ensures bound { unsigned_abs result < 10 ^ 38 }
    {
        self.units
    }

    pub(crate) fn is_negative(self) -> bool
        ensures { result ≡ int_lt self (pos 0) }
    {
        self.units < 0
    }

    pub(crate) fn is_whole(self) -> bool
        ensures { result ≡ is_whole self }
    {
        self.units.unsigned_abs() % ONE.unsigned_abs() == 0
    }

    /// The whole number, without its sign.
    pub(crate) fn whole(self) -> u128
        ensures { result ≡ unsigned_abs self / one }
    {
        self.units.unsigned_abs() / ONE.unsigned_abs()
    }

    pub(crate) fn negated(self) -> Self
        ensures { result ≡ neg_ℤ self }
    {
        Units { units: -self.units }
    }

    pub(crate) fn equals(self, other: Self) -> bool
        ensures { result ≡ int_eq self other }
    {
        self.units == other.units
    }

    pub(crate) fn less(self, other: Self) -> bool
        ensures { result ≡ int_lt self other }
    {
        self.units < other.units
    }

    pub(crate) fn less_or_equal(self, other: Self) -> bool
        ensures { result ≡ int_le self other }
    {
        self.units <= other.units
    }

    pub(crate) fn sum(self, other: Self) -> Result<Self, EvalFault>
        ensures { result ≡ sum self other }
    {
        match self.units.checked_add(other.units) {
            Some(units) => Units::new(units),
            None => Err(EvalFault::Range),
        }
    }

    pub(crate) fn difference(self, other: Self) -> Result<Self, EvalFault>
        ensures { result ≡ difference self other }
    {
        match self.units.checked_sub(other.units) {
            Some(units) => Units::new(units),
            None => Err(EvalFault::Range),
        }
    }

    /// Of whole numbers.
    pub(crate) fn product(self, other: Self) -> Result<Self, EvalFault>
        ensures { result ≡ product self other }
    {
        if !self.is_whole() || !other.is_whole() {
            return Err(EvalFault::BadType);
        }
        scaled(self.units / ONE, other.units)
    }

    /// Of whole numbers, rounded to zero.
    pub(crate) fn quotient(self, other: Self) -> Result<Self, EvalFault>
        ensures { result ≡ quotient self other }
    {
        if !self.is_whole() || !other.is_whole() {
            return Err(EvalFault::BadType);
        }
        self.divided(other)
    }

    fn divided(self, other: Self) -> Result<Self, EvalFault>
        ensures { result ≡ unless_zero other (in_units (int_div self other *ℤ pos one)) }
    {
        if other.units == 0 {
            return Err(EvalFault::ZeroDivisor);
        }
        scaled(self.over(other), ONE)
    }

    fn over(self, other: Self) -> i128
        requires { unsigned_abs other ≢ 0 }
        ensures { result ≡ int_div self other }
    {
        self.units / other.units
    }

    /// Of whole numbers, with the sign of the first.
    pub(crate) fn remainder(self, other: Self) -> Result<Self, EvalFault>
        ensures { result ≡ remainder self other }
    {
        if !self.is_whole() || !other.is_whole() {
            return Err(EvalFault::BadType);
        }
        if other.units == 0 {
            return Err(EvalFault::ZeroDivisor);
        }
        Units::new(self.units % other.units)
    }
}

fn scaled(number: i128, by: i128) -> Result<Units, EvalFault>
    ensures { result ≡ in_units (number *ℤ by) }
{
    match number.checked_mul(by) {
        Some(units) => Units::new(units),
        None => Err(EvalFault::Range),
    }
}

/// So many whole things.
pub(crate) fn counted(count: usize) -> Result<Units, EvalFault>
    ensures { result ≡ in_units (pos (count * one)) }
{
    Units::new(count as i128 * ONE)
}
