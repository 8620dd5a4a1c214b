// Where entries are found by run and target.
ghost use Rattle.std.specs.Prelude.{◌≡◌, ℕ, true, false, find, IfSome};
ghost use Rattle.std.specs.Option.{option_copied, IfNone};
ghost use Rattle.admission.specs.Indexes.{digest, has_key, keys_of, place_of};

use kinds::Item;
use std::collections::BTreeSet;

/// A run and the digest of a target, and the number of an entry.
pub(crate) type Place = ((u64, u64), u64);

/// A number that stands for the bytes of a target. Other targets may have the same.
#[tactic(auto, unfolding(crate::specs::Indexes::digest))]
pub(crate) fn digest(target: &[u8]) -> u32
    ensures { result ≡ digest target.now }
{
    target.iter().fold(
        0,
        |sum: u32, byte| sum.wrapping_mul(31).wrapping_add(u32::from(*byte)),
    )
}

/// Where an item is found.
pub(crate) fn part_of(item: &Item) -> (u64, u64)
    ensures { result ≡ place_of item.now }
{
    (item.run, u64::from(digest(item.target.as_slice())))
}

/// Entries under their numbers, each with a target.
pub(crate) trait Targets {
    ghost use Rattle.std.specs.Prelude.{List, ℕ, Bool};

    ghost is_target: { Self → List ℕ → ℕ → Bool };

    /// Whether the entry of the number has the target.
    fn is_target(&self, target: &[u8], number: u64) -> bool
        ensures { result ≡ is_target self.now target.now number };
}

/// The least number of a run's entries with the least digest.
pub(crate) fn first_of_run(places: &BTreeSet<Place>, run: u64) -> Option<u64>
    ensures some { IfSome result (λ n. (d : ℕ) × (has_key places.now.keys (run, d) n ≡ true)) }
    ensures none { IfNone result ((d n : ℕ) → has_key places.now.keys (run, d) n ≡ false) }
{
    let Some(&((found, _), number)) = places.range(((run, 0), 0)..).next() else {
        return None;
    };
    if found != run {
        return None;
    }
    Some(number)
}

// The first key of a run and the target's digest whose entry has the target.
fn first_key<'a, T: Targets>(
    places: &'a BTreeSet<Place>,
    run: u64,
    target: &[u8],
    entries: &T,
) -> Option<&'a Place>
    ensures { option_copied result ≡ find (λ p. T.is_target entries.now target.now p.1)
        (keys_of run (digest target.now) places.now.keys) }
{
    let digest = u64::from(digest(target));
    places
        .range(((run, digest), 0)..((run, digest + 1), 0))
        .find(|place| entries.is_target(target, place.1))
}

/// The least number of a run's entries with the target. Looks at those alone whose targets have the same
/// digest.
pub(crate) fn first_of<T: Targets>(
    places: &BTreeSet<Place>,
    run: u64,
    target: &[u8],
    entries: &T,
) -> Option<u64>
    ensures some { IfSome result (λ n. (has_key places.now.keys (run, digest target.now) n ≡ true)
        × (T.is_target entries.now target.now n ≡ true)) }
    ensures none { IfNone result ((n : ℕ) → has_key places.now.keys (run, digest target.now) n ≡ true
        → T.is_target entries.now target.now n ≡ false) }
{
    let Some(place) = first_key(places, run, target, entries) else {
        return None;
    };
    Some(place.1)
}
