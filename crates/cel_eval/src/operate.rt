// Operators between two values: logic, comparisons and `in`.
ghost use Rattle.std.specs.Prelude.{◌≡◌, IfOk, ◌&&◌, true, false};
ghost use Rattle.cel_eval.specs.Data.{object};
ghost use Rattle.cel_eval.specs.Operands.{datum_of, Gives};
ghost use Rattle.cel_eval.specs.Equality.{fits};
ghost use Rattle.cel_eval.specs.Operations.{operate, join, among, compare_equal, are_nested};

use crate::EvalFault;
use crate::equality::{equal, fits, is_among, is_among_parts, same_bool};
use crate::operand::Operand;
use crate::pairs::{divide, less, less_or_equal, minus, plus, remainder, times};
use crate::part::Part;
use expr::Operator;
use lists::Memory;
use std::alloc::Global;

/// An operator over the values of its sides.
pub(crate) fn operate<'t, 'a>(
    operator: Operator,
    left: &Operand<'_, '_>,
    right: &Operand<'_, '_>,
    alloc: Global,
) -> Result<Operand<'t, 'a>, EvalFault>
    ensures { Gives (operate operator (datum_of left.now) (datum_of right.now)) result }
{
    match operator {
        Operator::Or => join(true, left.truth(), right.truth()),
        Operator::And => join(false, left.truth(), right.truth()),
        Operator::Less => less(left, right),
        Operator::LessOrEqual => less_or_equal(left, right),
        Operator::Greater => less(right, left),
        Operator::GreaterOrEqual => less_or_equal(right, left),
        Operator::Equal => compare_equal(true, left, right),
        Operator::NotEqual => compare_equal(false, left, right),
        Operator::In => among(left, right),
        Operator::Plus => plus(left, right, alloc),
        Operator::Minus => minus(left, right),
        Operator::Times => times(left, right),
        Operator::Divide => divide(left, right),
        Operator::Remainder => remainder(left, right),
    }
}

/// `||`, which is decided by true, or `&&`, which is decided by false.
pub(crate) fn join<'t, 'a>(
    decides: bool,
    left: Result<bool, EvalFault>,
    right: Result<bool, EvalFault>,
) -> Result<Operand<'t, 'a>, EvalFault>
    ensures { Gives (join decides left right) result }
{
    if decides {
        or(left, right)
    } else {
        and(left, right)
    }
}

fn or<'t, 'a>(
    left: Result<bool, EvalFault>,
    right: Result<bool, EvalFault>,
) -> Result<Operand<'t, 'a>, EvalFault>
    ensures { Gives (join true left right) result }
{
    match (left, right) {
        (Ok(true), _) | (_, Ok(true)) => Ok(Operand::Bool(true)),
        (Err(fault), _) | (_, Err(fault)) => Err(fault),
        _ => Ok(Operand::Bool(false)),
    }
}

fn and<'t, 'a>(
    left: Result<bool, EvalFault>,
    right: Result<bool, EvalFault>,
) -> Result<Operand<'t, 'a>, EvalFault>
    ensures { Gives (join false left right) result }
{
    match (left, right) {
        (Ok(false), _) | (_, Ok(false)) => Ok(Operand::Bool(false)),
        (Err(fault), _) | (_, Err(fault)) => Err(fault),
        _ => Ok(Operand::Bool(true)),
    }
}

/// `==` or `!=`, as `wanted` says.
fn compare_equal<'t, 'a>(
    wanted: bool,
    left: &Operand<'_, '_>,
    right: &Operand<'_, '_>,
) -> Result<Operand<'t, 'a>, EvalFault>
    ensures { Gives (compare_equal wanted (datum_of left.now) (datum_of right.now)) result }
{
    if are_nested(left, right) && !both_fit(left, right)? {
        return Err(EvalFault::Range);
    }
    Ok(Operand::Bool(same_bool(wanted, equal(left, right)?)))
}

fn are_nested(left: &Operand<'_, '_>, right: &Operand<'_, '_>) -> bool
    ensures { result ≡ are_nested (datum_of left.now) (datum_of right.now) }
{
    (left.is_list() && right.is_list()) || (left.is_object() && right.is_object())
}

fn both_fit(left: &Operand<'_, '_>, right: &Operand<'_, '_>) -> Result<bool, Memory>
    ensures { IfOk result (λ b. b ≡ (fits (datum_of left.now) && fits (datum_of right.now))) }
{
    Ok(fits(left)? && fits(right)?)
}

/// `a in b`.
fn among<'t, 'a>(
    left: &Operand<'_, '_>,
    right: &Operand<'_, '_>,
) -> Result<Operand<'t, 'a>, EvalFault>
    ensures { Gives (among (datum_of left.now) (datum_of right.now)) result }
{
    match right {
        Operand::Object(part) => named(left, part),
        Operand::List(part) => {
            if !both_fit(left, right)? {
                return Err(EvalFault::Range);
            }
            Ok(Operand::Bool(is_among_parts(left, part)?))
        }
        Operand::Written(items) => {
            if !both_fit(left, right)? {
                return Err(EvalFault::Range);
            }
            Ok(Operand::Bool(is_among(left, items)?))
        }
        _ => Err(EvalFault::BadType),
    }
}

fn named<'t, 'a>(name: &Operand<'_, '_>, part: &Part<'_, '_>) -> Result<Operand<'t, 'a>, EvalFault>
    ensures { Gives (among (datum_of name.now) (object part.now)) result }
{
    match name.text() {
        Some(name) => Ok(Operand::Bool(part.member(name).is_some())),
        None => Err(EvalFault::BadType),
    }
}
