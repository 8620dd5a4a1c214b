// A node of a tree as it is kept.
ghost use Rattle.std.specs.Prelude.{◌≡◌, IfOk};

use crate::Kind;
use lists::Memory;

/// A node of a tree: its place in the source, and the index of the node behind its parts. Places and
/// indices take 32 bits, so that a node takes 20 bytes.
#[derive(Clone, Copy, Debug, Drop)]
pub(crate) struct Entry {
    pub(crate) kind: Kind,
    /// How many parts it has: values, or names and values.
    pub(crate) count: u32,
    pub(crate) start: u32,
    pub(crate) stop: u32,
    pub(crate) next: u32,
}

impl Entry {
    ghost use Rattle.json_text.specs.Building.{new_entry};

    /// An entry without parts, where places and indices fit.
    pub(crate) fn new(kind: Kind, start: usize, stop: usize, next: usize) -> Result<Self, Memory>
        ensures { IfOk result (λ e. e ≡ new_entry kind start stop next) }
    {
        Ok(Entry {
            kind,
            count: 0,
            start: small(start)?,
            stop: small(stop)?,
            next: small(next)?,
        })
    }
}

/// The number in 32 bits. A greater one counts as want of memory.
pub(crate) fn small(number: usize) -> Result<u32, Memory>
    ensures { IfOk result (λ n. n ≡ number) }
{
    match u32::try_from(number) {
        Ok(small) => Ok(small),
        Err(_) => Err(Memory),
    }
}
