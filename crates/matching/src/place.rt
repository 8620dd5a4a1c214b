// Where an index keeps its entries.
ghost use Rattle.std.specs.Prelude.{◌≡◌};
ghost use Rattle.std.specs.Option.{option_map};
ghost use Rattle.matching.specs.Places.{value_in, path_in};

use kinds::Bucket;
use lists::{Bytes, Items};
use std::alloc::Global;

/// What the entries at one place have in common besides the value there: the event's name, and the path
/// of their buckets, where they have any.
#[derive(Clone, PartialEq, Eq, PartialOrd, Ord, Drop)]
pub struct Field {
    /// The event's name.
    pub name: Bytes,
    /// The names of members, from the outermost in.
    pub path: Option<Items<Bytes>>,
}

/// The place of a name and a bucket, which takes no memory.
pub fn place_from(alloc: Global, name: Bytes, bucket: Option<Bucket>) -> (Field, Bytes)
    ensures { result ≡ (record { name = name; path = option_map path_in bucket }, value_in bucket) }
{
    match bucket {
        Some(bucket) => {
            let path = Some(bucket.path);
            (Field { name, path }, bucket.value)
        }
        None => (Field { name, path: None }, Bytes::new(alloc)),
    }
}
