// How many open issues each cell has.
ghost use Rattle.std.specs.Prelude.{◌≡◌, ◌<◌, [], length, OnOk, OnErr, Some};
ghost use Rattle.std.specs.List.{list_any};
ghost use Rattle.kinds.specs.Cells.{has_cell};
ghost use Rattle.concurrency_keys.specs.Counts.{count_of, is_full_by, Sets, IsSame};
ghost use Rattle.concurrency_keys.specs.Counts.{IsRaised, IsLowered, IsRaisedAt, IsLoweredAt, IsRaisedAll, IsLoweredAll};

use kinds::{Cell, CellLimit};
use lists::Memory;
use std::alloc::Global;
use std::collections::BTreeMap;
use std::marker::Model;

/// For each cell that issues have, how many do.
#[derive(Drop)]
pub(crate) struct Counters {
    counts: BTreeMap<Cell, u64>,
}

impl Model for Counters {
    ghost use Rattle.std.specs.Prelude.{List, ℕ};
    ghost use Rattle.kinds.specs.declared.cell.Cell.{Cell};
    ghost use Rattle.concurrency_keys.specs.Counts.{NoneIsZero};

    ghost Value = { List (Cell × ℕ) };

    ghost view = { λ c. c.counts.entries };

    ghost invariant = { λ c. NoneIsZero c.counts.entries };
}

/// Whether the list names the cell.
fn has_cell(cell: &Cell, limits: &[CellLimit]) -> bool
    ensures { result ≡ has_cell cell.now limits.now }
{
    limits.iter().any(|l| cell.cmp(&l.cell).is_eq())
}

impl Counters {
    pub(crate) fn empty(alloc: Global) -> Self
        ensures { result ≡ [] }
    {
        Counters {
            counts: BTreeMap::new(alloc),
        }
    }

    /// How many issues have the cell.
    pub(crate) fn count(&self, cell: &Cell) -> u64
        ensures { result ≡ count_of cell.now self.now }
    {
        self.counts.get(cell).copied().unwrap_or(0)
    }

    /// Whether as many issues have one of the cells as its limit, or more.
    pub(crate) fn any_full(&self, limits: &[CellLimit]) -> bool
        ensures { result ≡ list_any (is_full_by self.now) limits.now }
    {
        limits.iter().any(|l| self.count(&l.cell) >= l.limit as u64)
    }

    /// One more has the cell. A count of 2^64 counts as want of memory.
    pub(crate) fn raise(&mut self, cell: &Cell) -> Result<(), Memory>
        ensures ok { OnOk result (IsRaised cell.now self.old self.new) }
        ensures err { OnErr result (self.new ≡ self.old) }
    {
        let count = self.count(cell).checked_add(1).ok_or(Memory)?;
        let key = cell.clone()?;
        self.counts.insert(key, count)?;
        Ok(())
    }

    // Changes the count of a cell that has one.
    fn set(&mut self, cell: &Cell, count: u64)
        requires counted { 0 < count_of cell.now self.old }
        requires some { 0 < count }
        ensures { Sets cell.now (Some count) self.old self.new }
    {
        if let Some(place) = self.counts.get_mut(cell) {
            *place = count;
        }
    }

    /// One fewer has the cell.
    pub(crate) fn lower(&mut self, cell: &Cell)
        ensures { IsLowered cell.now self.old self.new }
    {
        let count = self.count(cell);
        if count > 1 {
            self.set(cell, count - 1);
        } else {
            self.counts.remove(cell);
        }
    }

    // Counts the cell at k, unless it was counted before k.
    fn raise_at(&mut self, limits: &[CellLimit], k: usize) -> Result<(), Memory>
        requires { k < length limits.now }
        ensures ok { OnOk result (IsRaisedAt k limits.now self.old self.new) }
        ensures err { OnErr result (self.new ≡ self.old) }
    {
        let cell = &limits[k].cell;
        if has_cell(cell, &limits[..k]) {
            return Ok(());
        }
        self.raise(cell)?;
        Ok(())
    }

    // Counts the cell at k no more, unless that was done before k.
    fn lower_at(&mut self, limits: &[CellLimit], k: usize)
        requires { k < length limits.now }
        ensures { IsLoweredAt k limits.now self.old self.new }
    {
        let cell = &limits[k].cell;
        if has_cell(cell, &limits[..k]) {
            return;
        }
        self.lower(cell);
    }

    /// One more has each cell of the list. Without memory for all of them, none is counted.
    pub(crate) fn raise_all(&mut self, limits: &[CellLimit]) -> Result<(), Memory>
        ensures ok { OnOk result (IsRaisedAll limits.now self.old self.new) }
        ensures err { OnErr result (IsSame self.old self.new) }
    {
        for k in 0..limits.len() {
            match self.raise_at(limits, k) {
                Ok(()) => {}
                Err(_) => {
                    self.lower_all(&limits[..k]);
                    return Err(Memory);
                }
            }
        }
        Ok(())
    }

    /// One fewer has each cell of the list.
    pub(crate) fn lower_all(&mut self, limits: &[CellLimit])
        ensures { IsLoweredAll limits.now self.old self.new }
    {
        for k in 0..limits.len() {
            self.lower_at(limits, k);
        }
    }
}
