// Whether two values are equal, item by item and member by member.
ghost use Rattle.std.specs.Prelude.{◌≡◌, IfOk, drop};
ghost use Rattle.json_text.specs.Grammar.{spelling};
ghost use Rattle.json_text.specs.Nodes.{kind_of, items_of};
ghost use Rattle.text_num.specs.Units.{units_of};
ghost use Rattle.cel_eval.specs.Data.{units_within, null, boolean, number, text, list, object, written, none};
ghost use Rattle.cel_eval.specs.Operands.{data_of, datum_of};
ghost use Rattle.cel_eval.specs.Equality.{fits, all_fit, same_bool, is_number, is_json, are_parts, is_null, is_boolean, is_units, is_string, equal, all_equal, is_among, is_among_parts};

use crate::operand::Operand;
use crate::part::Part;
use crate::units::Units;
use json_text::Kind;
use lists::Memory;

// ---- numbers in range

/// Whether each number that counts is in range.
#[cycle(fits)]
pub(crate) fn fits(operand: &Operand<'_, '_>) -> Result<bool, Memory>
    ensures { IfOk result (λ b. b ≡ fits (datum_of operand.now)) }
{
    match operand {
        Operand::List(part) => part.in_range(),
        Operand::Object(part) => part.in_range(),
        Operand::Written(items) => all_fit(items),
        _ => Ok(true),
    }
}

#[tactic(auto, using(crate::proofs::LoopLemmas::data_step, crate::proofs::LoopLemmas::data_end))]
#[cycle(fits)]
fn all_fit(items: &Vec<Operand<'_, '_>>) -> Result<bool, Memory>
    ensures { IfOk result (λ b. b ≡ all_fit (data_of items.now.items)) }
{
    for item in items {
        if !fits(item)? {
            return Ok(false);
        }
    }
    Ok(true)
}

// ---- equal to a value of an event's text

#[cycle(is_json)]
pub(crate) fn is_json(operand: &Operand<'_, '_>, part: &Part<'_, '_>) -> Result<bool, Memory>
    ensures { IfOk result (λ b. b ≡ is_json (datum_of operand.now) part.now) }
{
    match operand {
        Operand::Null => Ok(null_is(part)),
        Operand::Bool(value) => Ok(bool_is(*value, part)),
        Operand::Number(units) => Ok(number_is(*units, part)),
        Operand::Text(text) => Ok(part.is_text(text)),
        Operand::Made(text) => Ok(part.is_text(text.as_slice())),
        Operand::List(own) => list_is(own, part),
        Operand::Object(own) => object_is(own, part),
        Operand::Written(items) => written_is(items, part),
    }
}

#[cycle(is_json)]
fn written_is(items: &Vec<Operand<'_, '_>>, part: &Part<'_, '_>) -> Result<bool, Memory>
    ensures { IfOk result (λ b. b ≡ is_json (written (data_of items.now.items)) part.now) }
{
    match part.kind() {
        Kind::List => are_parts(items, part),
        _ => Ok(false),
    }
}

#[tactic(auto, using(crate::proofs::LoopLemmas::data_step, crate::proofs::LoopLemmas::data_end, crate::proofs::LoopLemmas::list_step, crate::proofs::LoopLemmas::list_end))]
#[cycle(is_json)]
fn are_parts(items: &Vec<Operand<'_, '_>>, part: &Part<'_, '_>) -> Result<bool, Memory>
    ensures { IfOk result (λ b. b ≡ are_parts (data_of items.now.items) (items_of part.now)) }
{
    for (k, item) in items.iter().enumerate() {
        let Some(value) = part.item(k as u128) else {
            return Ok(false);
        };
        if !is_json(item, &value)? {
            return Ok(false);
        }
    }
    Ok(part.item(items.len() as u128).is_none())
}

fn null_is(part: &Part<'_, '_>) -> bool
    ensures { result ≡ is_json null part.now }
{
    match part.kind() {
        Kind::Null => true,
        _ => false,
    }
}

fn bool_is(value: bool, part: &Part<'_, '_>) -> bool
    ensures { result ≡ is_json (boolean value) part.now }
{
    match part.kind() {
        Kind::Bool => same_bool(value, part.is_true()),
        _ => false,
    }
}

pub(crate) fn same_bool(first: bool, second: bool) -> bool
    ensures { result ≡ same_bool first second }
{
    if first { second } else { !second }
}

fn number_is(value: Units, part: &Part<'_, '_>) -> bool
    ensures { result ≡ is_json (number value) part.now }
{
    match part.kind() {
        Kind::Number => units_are(value, part),
        _ => false,
    }
}

fn units_are(value: Units, part: &Part<'_, '_>) -> bool
    ensures { result ≡ is_number value (units_within (units_of (spelling part.now))) }
{
    match part.units() {
        Ok(units) => value.equals(units),
        Err(_) => false,
    }
}

fn list_is(own: &Part<'_, '_>, part: &Part<'_, '_>) -> Result<bool, Memory>
    ensures { IfOk result (λ b. b ≡ is_json (list own.now) part.now) }
{
    match part.kind() {
        Kind::List => own.is_same(part),
        _ => Ok(false),
    }
}

fn object_is(own: &Part<'_, '_>, part: &Part<'_, '_>) -> Result<bool, Memory>
    ensures { IfOk result (λ b. b ≡ is_json (object own.now) part.now) }
{
    match part.kind() {
        Kind::Object => own.is_same(part),
        _ => Ok(false),
    }
}

// ---- equal to another value

#[cycle(equal)]
pub(crate) fn equal(left: &Operand<'_, '_>, right: &Operand<'_, '_>) -> Result<bool, Memory>
    ensures { IfOk result (λ b. b ≡ equal (datum_of left.now) (datum_of right.now)) }
{
    match left {
        Operand::Null => Ok(is_null(right)),
        Operand::Bool(value) => Ok(is_bool(*value, right)),
        Operand::Number(units) => Ok(is_units(*units, right)),
        Operand::Text(text) => Ok(is_string(text, right)),
        Operand::Made(text) => Ok(is_string(text.as_slice(), right)),
        Operand::List(part) => is_json(right, part),
        Operand::Object(part) => is_json(right, part),
        Operand::Written(items) => is_written(items, right),
    }
}

#[cycle(equal)]
fn is_written(items: &Vec<Operand<'_, '_>>, right: &Operand<'_, '_>) -> Result<bool, Memory>
    ensures { IfOk result (λ b. b ≡ equal (written (data_of items.now.items)) (datum_of right.now)) }
{
    match right {
        Operand::List(part) => written_is(items, part),
        Operand::Written(others) => all_equal(items, others),
        _ => Ok(false),
    }
}

#[tactic(auto, using(crate::proofs::LoopLemmas::data_step, crate::proofs::LoopLemmas::data_end, crate::proofs::LoopLemmas::list_step, crate::proofs::LoopLemmas::list_end))]
#[cycle(equal)]
fn all_equal(items: &Vec<Operand<'_, '_>>, others: &Vec<Operand<'_, '_>>) -> Result<bool, Memory>
    ensures { IfOk result (λ b. b ≡ all_equal (data_of items.now.items) (data_of others.now.items)) }
{
    for (k, item) in items.iter().enumerate() {
        let Some(other) = others.get(k) else {
            return Ok(false);
        };
        if !equal(item, other)? {
            return Ok(false);
        }
    }
    Ok(ends(others, items.len()))
}

#[tactic(auto, using(crate::proofs::LoopLemmas::is_ended, crate::proofs::LoopLemmas::not_ended))]
fn ends(others: &Vec<Operand<'_, '_>>, at: usize) -> bool
    ensures { result ≡ all_equal none (data_of (drop at others.now.items)) }
{
    if at < others.len() { false } else { true }
}

fn is_null(right: &Operand<'_, '_>) -> bool
    ensures { result ≡ is_null (datum_of right.now) }
{
    match right {
        Operand::Null => true,
        _ => false,
    }
}

fn is_bool(value: bool, right: &Operand<'_, '_>) -> bool
    ensures { result ≡ is_boolean value (datum_of right.now) }
{
    match right {
        Operand::Bool(other) => same_bool(value, *other),
        _ => false,
    }
}

fn is_units(value: Units, right: &Operand<'_, '_>) -> bool
    ensures { result ≡ is_units value (datum_of right.now) }
{
    match right {
        Operand::Number(other) => value.equals(*other),
        _ => false,
    }
}

fn is_string(text: &[u8], right: &Operand<'_, '_>) -> bool
    ensures { result ≡ is_string text.now (datum_of right.now) }
{
    match right {
        Operand::Text(other) => text == *other,
        Operand::Made(other) => text == other.as_slice(),
        _ => false,
    }
}

// ---- among the items of a list

#[tactic(auto, using(crate::proofs::LoopLemmas::data_step, crate::proofs::LoopLemmas::data_end))]
pub(crate) fn is_among(
    operand: &Operand<'_, '_>,
    items: &Vec<Operand<'_, '_>>,
) -> Result<bool, Memory>
    ensures { IfOk result (λ b. b ≡ is_among (datum_of operand.now) (data_of items.now.items)) }
{
    for item in items {
        if equal(operand, item)? {
            return Ok(true);
        }
    }
    Ok(false)
}

pub(crate) fn is_among_parts(operand: &Operand<'_, '_>, part: &Part<'_, '_>) -> Result<bool, Memory>
    ensures { IfOk result (λ b. b ≡ is_among_parts (datum_of operand.now) (items_of part.now)) }
{
    for item in part.items() {
        if is_json(operand, &item)? {
            return Ok(true);
        }
    }
    Ok(false)
}
