// Where entries are found by id.
ghost use Rattle.std.specs.Prelude.{◌≡◌, ◌<◌, ◌^◌, find};
ghost use Rattle.std.specs.Option.{option_copied};
ghost use Rattle.intake.specs.Number.{has_number};
ghost use Rattle.intake.specs.Places.{digest, is_of, places_of};

use crate::timeline::Timeline;
use sha2::{Digest, Sha256};
use std::collections::BTreeSet;

/// The digest of an id, and the number of its entry.
pub(crate) type Place = (u64, u64);

/// A number that stands for the bytes of an id, 63 bits of its SHA-256. Other ids may have the same, and
/// a look-up goes through all ids of its digest. Senders choose their ids: with a sum of the bytes,
/// thousands of one digest are easily made, and each look-up would go through them all. Here a pair takes
/// some billions of tries, and each further id of its digest far more, so that a look-up compares a few.
#[tactic(auto, unfolding(crate::specs::Places::digest))]
pub(crate) fn digest(id: &[u8]) -> u64
    ensures value { result ≡ digest id.now }
    // so that one more is counted too
    ensures small { result < 2 ^ 63 }
{
    let [a, b, c, d, e, f, g, h, ..] = Sha256::digest(id);
    u64::from_be_bytes([a, b, c, d, e, f, g, h]) / 2
}

/// The first place of an id's digest whose entry has the id.
pub(crate) fn first_place<'a>(
    places: &'a BTreeSet<Place>,
    id: &[u8],
    timeline: &Timeline,
) -> Option<&'a Place>
    ensures { option_copied result ≡ find (λ p. is_of id.now (find (has_number p.1) timeline.now))
        (places_of (digest id.now) places.now.keys) }
{
    let digest = digest(id);
    places
        .range((digest, 0)..(digest + 1, 0))
        .find(|place| timeline.has_id(id, place.1))
}
