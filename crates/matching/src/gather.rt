// The numbers of one group of a set.
ghost use Rattle.std.specs.Prelude.{◌≡◌, ℕ, ◌||◌, OnOk};
ghost use Rattle.std.specs.List.{list_any};
ghost use Rattle.std.specs.BTreeMap.{is_at};
ghost use Rattle.ordered.specs.Indexes.{group_cmp};
ghost use Rattle.matching.specs.Places.{has_number};

use lists::Memory;
use std::collections::BTreeSet;

/// Adds the numbers of the group that `start` begins.
pub fn gather<K: Ord + Drop>(
    pairs: &BTreeSet<(K, u64)>,
    start: &(K, u64),
    found: &mut BTreeSet<u64>,
) -> Result<(), Memory>
    requires first { start.now.1 ≡ 0 }
    ensures { OnOk result ((n : ℕ) → has_number found.new.keys n ≡
        (has_number found.old.keys n
        || list_any (is_at (group_cmp K.cmp (start.now.0, n))) pairs.now.keys)) }
{
    for pair in pairs.range(start..) {
        if pair.0 != start.0 {
            break;
        }
        found.insert(pair.1)?;
    }
    Ok(())
}
