// The numbers whose conditions are looked at for an event.
ghost use Rattle.std.specs.Prelude.{◌≡◌, ◌||◌, ℕ, [], None, OnOk, IfOk};
ghost use Rattle.std.specs.List.{list_any};
ghost use Rattle.std.specs.Option.{option_copied};
ghost use Rattle.matching.specs.Places.{value_for, field_after, has_number, is_wanted, is_wanted_of, path_behind, IsNext};

use crate::gather::gather;
use crate::place::Field;
use kinds::{Event, PathMatcher};
use lists::{Bytes, Items, Memory};
use std::alloc::Global;
use std::collections::BTreeSet;

/// The numbers at the places whose name is the event's, and whose value is the event's where they have
/// a path. Each path is asked once.
pub fn near<M: PathMatcher>(
    alloc: Global,
    places: &BTreeSet<((Field, Bytes), u64)>,
    event: &Event,
    matcher: &M,
) -> Result<BTreeSet<u64>, Memory>
    ensures { IfOk result (λ s. (n : ℕ) →
        has_number s.keys n
        ≡ list_any (is_wanted (M.value_of matcher.now) event.now n) places.now.keys) }
{
    let mut found = BTreeSet::new(alloc);
    let mut start = first_place(alloc, event.name.as_slice())?;
    while let Some(field) = next_field(places, &start) {
        look(alloc, places, field, event, matcher, &mut found)?;
        start = place_after(alloc, field)?;
    }
    Ok(found)
}

// The first place of a name.
fn first_place(alloc: Global, name: &[u8]) -> Result<((Field, Bytes), u64), Memory>
    ensures { IfOk result (λ p. p ≡ ((record { name = name.now; path = None }, []), 0)) }
{
    let field = Field {
        name: Bytes::from_slice(alloc, name)?,
        path: None,
    };
    Ok(((field, Bytes::new(alloc)), 0))
}

// The first place behind a field's.
fn place_after(alloc: Global, field: &Field) -> Result<((Field, Bytes), u64), Memory>
    ensures { IfOk result (λ p. p ≡ ((field_after field.now, []), 0)) }
{
    let field = Field {
        name: field.name.clone()?,
        path: Some(path_after(alloc, field)?),
    };
    Ok(((field, Bytes::new(alloc)), 0))
}

// The path behind a field's.
fn path_after(alloc: Global, field: &Field) -> Result<Items<Bytes>, Memory>
    ensures { IfOk result (λ p. p ≡ path_behind field.now.path) }
{
    match &field.path {
        Some(path) => {
            let mut after = path.clone()?;
            after.push(Bytes::new(alloc))?;
            Ok(after)
        }
        None => Ok(Items::new(alloc)),
    }
}

// The field of the least place from one on, where the names are equal.
fn next_field<'a>(
    places: &'a BTreeSet<((Field, Bytes), u64)>,
    start: &((Field, Bytes), u64),
) -> Option<&'a Field>
    requires first { start.now ≡ ((start.now.0.0, []), 0) }
    ensures { IsNext start.now.0.0 places.now.keys (option_copied result) }
{
    let ((field, _), _) = places.range(start..).next()?;
    if field.name == start.0.0.name {
        Some(field)
    } else {
        None
    }
}

// Adds the numbers of a field that an event has the value of.
fn look<M: PathMatcher>(
    alloc: Global,
    places: &BTreeSet<((Field, Bytes), u64)>,
    field: &Field,
    event: &Event,
    matcher: &M,
    found: &mut BTreeSet<u64>,
) -> Result<(), Memory>
    requires named { field.now.name ≡ event.now.name }
    ensures { OnOk result ((n : ℕ) → has_number found.new.keys n ≡ (has_number found.old.keys n
        || list_any (is_wanted_of field.now (M.value_of matcher.now) event.now n) places.now.keys)) }
{
    let copy = copy_field(field)?;
    let Some(value) = value_of(alloc, field, event, matcher)? else {
        return Ok(());
    };
    gather(places, &((copy, value), 0), found)
}

fn copy_field(field: &Field) -> Result<Field, Memory>
    ensures { IfOk result (λ f. f ≡ field.now) }
{
    let path = match &field.path {
        Some(path) => Some(path.clone()?),
        None => None,
    };
    let name = field.name.clone()?;
    Ok(Field { name, path })
}

// The value that the entries of a field must have for an event.
fn value_of<M: PathMatcher>(
    alloc: Global,
    field: &Field,
    event: &Event,
    matcher: &M,
) -> Result<Option<Bytes>, Memory>
    ensures { IfOk result (λ v. v ≡ value_for (M.value_of matcher.now) event.now field.now.path) }
{
    match &field.path {
        Some(path) => matcher.value_at(event, path.as_slice()),
        None => Ok(Some(Bytes::new(alloc))),
    }
}
