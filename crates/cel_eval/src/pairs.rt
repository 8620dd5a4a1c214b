// Arithmetic of two values, and texts that are joined.
ghost use Rattle.std.specs.Prelude.{◌≡◌, ◌++◌, ◌≤◌, length};
ghost use Rattle.cel_eval.specs.Operands.{datum_of, Gives};
ghost use Rattle.cel_eval.specs.Operations.{plus, calculate, difference, product, quotient, remainder, in_room, stands_in, test_texts, text_method, text_lt, text_le, less, less_or_equal};

use crate::EvalFault;
use crate::operand::Operand;
use crate::units::Units;
use expr::Method;
use lists::Bytes;
use std::alloc::Global;

/// The most bytes that two joined texts have.
const LONGEST: usize = 65536;

/// `a + b`.
pub(crate) fn plus<'t, 'a>(
    left: &Operand<'_, '_>,
    right: &Operand<'_, '_>,
    alloc: Global,
) -> Result<Operand<'t, 'a>, EvalFault>
    ensures { Gives (plus (datum_of left.now) (datum_of right.now)) result }
{
    if let (Some(m), Some(n)) = (left.number(), right.number()) {
        return Ok(Operand::Number(m.sum(n)?));
    }
    match (left.text(), right.text()) {
        (Some(s), Some(t)) => joined(s, t, alloc),
        _ => Err(EvalFault::BadType),
    }
}

fn joined<'t, 'a>(first: &[u8], second: &[u8], alloc: Global) -> Result<Operand<'t, 'a>, EvalFault>
    ensures { Gives (in_room (first.now ++ second.now)) result }
{
    if first.len() > LONGEST || second.len() > LONGEST - first.len() {
        return Err(EvalFault::Range);
    }
    let mut text = Bytes::from_slice(alloc, first)?;
    text.extend_from_slice(second)?;
    Ok(Operand::Made(text))
}

/// `a - b`.
pub(crate) fn minus<'t, 'a>(
    left: &Operand<'_, '_>,
    right: &Operand<'_, '_>,
) -> Result<Operand<'t, 'a>, EvalFault>
    ensures { Gives (calculate difference (datum_of left.now) (datum_of right.now)) result }
{
    match (left.number(), right.number()) {
        (Some(m), Some(n)) => Ok(Operand::Number(m.difference(n)?)),
        _ => Err(EvalFault::BadType),
    }
}

/// `a * b`.
pub(crate) fn times<'t, 'a>(
    left: &Operand<'_, '_>,
    right: &Operand<'_, '_>,
) -> Result<Operand<'t, 'a>, EvalFault>
    ensures { Gives (calculate product (datum_of left.now) (datum_of right.now)) result }
{
    match (left.number(), right.number()) {
        (Some(m), Some(n)) => Ok(Operand::Number(m.product(n)?)),
        _ => Err(EvalFault::BadType),
    }
}

/// `a / b`.
pub(crate) fn divide<'t, 'a>(
    left: &Operand<'_, '_>,
    right: &Operand<'_, '_>,
) -> Result<Operand<'t, 'a>, EvalFault>
    ensures { Gives (calculate quotient (datum_of left.now) (datum_of right.now)) result }
{
    match (left.number(), right.number()) {
        (Some(m), Some(n)) => Ok(Operand::Number(m.quotient(n)?)),
        _ => Err(EvalFault::BadType),
    }
}

/// `a % b`.
pub(crate) fn remainder<'t, 'a>(
    left: &Operand<'_, '_>,
    right: &Operand<'_, '_>,
) -> Result<Operand<'t, 'a>, EvalFault>
    ensures { Gives (calculate remainder (datum_of left.now) (datum_of right.now)) result }
{
    match (left.number(), right.number()) {
        (Some(m), Some(n)) => Ok(Operand::Number(m.remainder(n)?)),
        _ => Err(EvalFault::BadType),
    }
}

/// `a < b`.
pub(crate) fn less<'t, 'a>(
    left: &Operand<'_, '_>,
    right: &Operand<'_, '_>,
) -> Result<Operand<'t, 'a>, EvalFault>
    ensures { Gives (less (datum_of left.now) (datum_of right.now)) result }
{
    if let (Some(m), Some(n)) = (left.number(), right.number()) {
        return Ok(Operand::Bool(m.less(n)));
    }
    match (left.text(), right.text()) {
        (Some(s), Some(t)) => Ok(Operand::Bool(text_lt(s, t))),
        _ => Err(EvalFault::BadType),
    }
}

/// `a <= b`.
pub(crate) fn less_or_equal<'t, 'a>(
    left: &Operand<'_, '_>,
    right: &Operand<'_, '_>,
) -> Result<Operand<'t, 'a>, EvalFault>
    ensures { Gives (less_or_equal (datum_of left.now) (datum_of right.now)) result }
{
    if let (Some(m), Some(n)) = (left.number(), right.number()) {
        return Ok(Operand::Bool(m.less_or_equal(n)));
    }
    match (left.text(), right.text()) {
        (Some(s), Some(t)) => Ok(Operand::Bool(text_le(s, t))),
        _ => Err(EvalFault::BadType),
    }
}

fn text_lt(first: &[u8], second: &[u8]) -> bool
    ensures { result ≡ text_lt first.now second.now }
{
    first.cmp(&second).is_lt()
}

fn text_le(first: &[u8], second: &[u8]) -> bool
    ensures { result ≡ text_le first.now second.now }
{
    first.cmp(&second).is_le()
}

/// `a.startsWith(b)` and the like.
pub(crate) fn text_method<'t, 'a>(
    method: Method,
    left: &Operand<'_, '_>,
    right: &Operand<'_, '_>,
) -> Result<Operand<'t, 'a>, EvalFault>
    ensures { Gives (text_method method (datum_of left.now) (datum_of right.now)) result }
{
    match (left.text(), right.text()) {
        (Some(s), Some(t)) => Ok(Operand::Bool(test_texts(method, s, t))),
        _ => Err(EvalFault::BadType),
    }
}

fn test_texts(method: Method, text: &[u8], part: &[u8]) -> bool
    ensures { result ≡ test_texts method text.now part.now }
{
    match method {
        Method::StartsWith => text.starts_with(part),
        Method::EndsWith => text.ends_with(part),
        Method::Contains => stands_in(text, part),
    }
}

#[tactic(auto, using(crate::proofs::StandsLemmas::begins, crate::proofs::StandsLemmas::goes_on))]
fn stands_in(text: &[u8], part: &[u8]) -> bool
    ensures { result ≡ stands_in text.now part.now }
{
    let mut rest = text;
    while !rest.starts_with(part) {
        match rest {
            [] => return false,
            [_, behind @ ..] => rest = behind,
        }
    }
    true
}
