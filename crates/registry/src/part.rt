// Members of a value, by the kind that they have to be of.
ghost use Rattle.std.specs.Prelude.{◌≡◌, ◌≤◌, option_map, IfSome};
ghost use Rattle.serde_json.specs.View.{items_view, view};
ghost use Rattle.registry.specs.Members.{array_in, first_present, has_count, part, text_in, whole, whole_in};

use crate::Member;
use serde_json::Value;

/// The member of this name, where the value is an object that has it and it isn't null.
pub(crate) fn part<'v>(value: &'v Value, name: &str) -> Option<&'v Value>
    ensures { option_map (λ v. view v.now) result ≡ part name.now (view value.now) }
{
    match value.get(name) {
        Some(Value::Null) | None => None,
        Some(member) => Some(member),
    }
}

/// The first of these members that the object has.
pub(crate) fn first_present(members: &[Member], object: &Value) -> Option<Member>
    ensures { result ≡ first_present members.now (view object.now) }
{
    members
        .iter()
        .copied()
        .find(|member| part(object, member.name()).is_some())
}

/// The member of this name, where it is a text that isn't empty.
pub(crate) fn text_in<'v>(value: &'v Value, name: &str) -> Option<&'v str>
    ensures { option_map (λ s. s.now) result ≡ text_in name.now (view value.now) }
{
    let text = part(value, name)?.as_str()?;
    if text.is_empty() { None } else { Some(text) }
}

/// A whole number from `least` to `most`, written without sign, fraction or exponent.
pub(crate) fn whole(value: &Value, least: u64, most: u64) -> Option<u64>
    ensures value { result ≡ whole least most (view value.now) }
    ensures most { IfSome result (λ n. n ≤ most) }
{
    match value.as_u64() {
        Some(number) if least <= number && number <= most => Some(number),
        _ => None,
    }
}

/// The same in the member of this name.
pub(crate) fn whole_in(value: &Value, name: &str, least: u64, most: u64) -> Option<u64>
    ensures value { result ≡ whole_in least most name.now (view value.now) }
    ensures most { IfSome result (λ n. n ≤ most) }
{
    whole(part(value, name)?, least, most)
}

/// The items of the member of this name, where it is an array.
pub(crate) fn array_in<'v>(value: &'v Value, name: &str) -> Option<&'v [Value]>
    ensures { option_map (λ items. items_view items.now) result ≡ array_in name.now (view value.now) }
{
    Some(part(value, name)?.as_array()?.as_slice())
}

/// There are so many items.
#[tactic(auto, using(crate::proofs::Arrays::counts))]
pub(crate) fn has_count(items: &[Value], least: usize, most: usize) -> bool
    ensures { result ≡ has_count least most (items_view items.now) }
{
    least <= items.len() && items.len() <= most
}
