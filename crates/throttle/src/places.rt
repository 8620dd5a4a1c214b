// Where entries stand, and the places of cells.
ghost use Rattle.std.specs.Prelude.{◌≡◌, Some, None, OnOk, OnErr, IfOk};
ghost use Rattle.throttle.specs.Places.{entry_of, Changes, Settles};

use kinds::{Cell, StartEntry};
use lists::Memory;
use std::collections::BTreeMap;

/// The greatest of an entry, and a number that no other entry has.
pub(crate) type Place = (u64, u64);

/// Puts the entry of a cell at a place.
pub(crate) fn stand(
    entries: &mut BTreeMap<Place, StartEntry>,
    cell: &Cell,
    place: Place,
) -> Result<(), Memory>
    ensures ok { OnOk result
        (Changes place (Some (entry_of (cell.now, place))) entries.old.entries entries.new.entries) }
    ensures err { OnErr result (entries.new.entries ≡ entries.old.entries) }
{
    let entry = StartEntry {
        cell: cell.clone()?,
        greatest: place.0,
    };
    entries.insert(place, entry)?;
    Ok(())
}

/// Takes out the entry at a place.
pub(crate) fn leave(entries: &mut BTreeMap<Place, StartEntry>, place: Place)
    ensures { Changes place None entries.old.entries entries.new.entries }
{
    entries.remove(&place);
}

/// Gives a cell a place, and says which it had.
pub(crate) fn settle(
    places: &mut BTreeMap<Cell, Place>,
    cell: &Cell,
    place: Place,
) -> Result<Option<Place>, Memory>
    ensures ok { IfOk result
        (λ left. Settles cell.now place left places.old.entries places.new.entries) }
    ensures err { OnErr result (places.new.entries ≡ places.old.entries) }
{
    let key = cell.clone()?;
    let left = places.insert(key, place)?;
    Ok(left)
}
