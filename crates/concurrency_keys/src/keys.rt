// The store of open issues and of the cells that they count in.
ghost use Rattle.std.specs.Prelude.{◌≡◌, [], true, find, None, OnOk, OnErr};
ghost use Rattle.kinds.specs.Cells.{are_free, is_full, has_issue, without_issue, insert_issue};
ghost use Rattle.concurrency_keys.specs.Counts.{IsLoweredAll};

use crate::Entries;
use crate::counters::Counters;
use kinds::{CellLimit, CellLimits, IssueEntry};
use lists::Memory;
use std::alloc::Global;
use std::collections::BTreeMap;
use std::marker::Model;

/// The open issues, each with the cells that it counts in. Contracts see the list of entries in order of
/// number.
#[derive(Drop)]
pub struct ConcurrencyKeys {
    issues: BTreeMap<u64, IssueEntry>,
    counters: Counters,
}

impl Model for ConcurrencyKeys {
    ghost use Rattle.std.specs.Prelude.{List};
    ghost use Rattle.std.specs.BTreeMap.{values};
    ghost use Rattle.kinds.specs.declared.cell.IssueEntry.{IssueEntry};
    ghost use Rattle.concurrency_keys.specs.Counts.{IsCounted};

    ghost Value = { List IssueEntry };

    ghost view = { λ k. values k.issues };

    ghost invariant = { λ k. IsCounted k.issues.entries k.counters };
}

/// What ended counts no more.
fn uncount(counters: &mut Counters, entry: IssueEntry)
    ensures { IsLoweredAll entry.cells counters.old counters.new }
{
    counters.lower_all(entry.cells.as_slice());
}

impl ConcurrencyKeys {
    /// A value without issues, which takes no memory.
    pub fn empty(alloc: Global) -> Self
        ensures { result ≡ [] }
    {
        ConcurrencyKeys {
            issues: BTreeMap::new(alloc),
            counters: Counters::empty(alloc),
        }
    }

    /// Whether in each of the cells fewer issues are open than its limit.
    pub fn free(&self, cells: &CellLimits) -> bool
        ensures { result ≡ are_free cells.now self.now }
    {
        !self.counters.any_full(cells.as_slice())
    }

    /// Whether as many issues are open in the cell as its limit, or more.
    pub fn full(&self, limit: &CellLimit) -> bool
        ensures { result ≡ is_full self.now limit.now }
    {
        self.counters.count(&limit.cell) >= limit.limit as u64
    }

    /// An issue is open, and counts once in each of the cells. A count of 2^64 counts as want of memory.
    pub fn enter(&mut self, issue: u64, cells: &CellLimits) -> Result<(), Memory>
        requires free { are_free cells.now self.old ≡ true }
        requires fresh { find (has_issue issue) self.old ≡ None }
        ensures ok { OnOk result (self.new
            ≡ insert_issue (record { issue = issue; cells = cells.now }) self.old) }
        ensures err { OnErr result (self.new ≡ self.old) }
    {
        let entry = IssueEntry {
            issue,
            cells: cells.clone()?,
        };
        self.counters.raise_all(cells.as_slice())?;
        match self.issues.insert(issue, entry) {
            Ok(_) => Ok(()),
            Err(_) => {
                self.counters.lower_all(cells.as_slice());
                return Err(Memory);
            }
        }
    }

    /// An issue has ended, and counts no more. One that isn't open changes nothing.
    pub fn leave(&mut self, issue: u64)
        ensures { self.new ≡ without_issue issue self.old }
    {
        if let Some(entry) = self.issues.remove(&issue) {
            uncount(&mut self.counters, entry);
        }
    }

    /// The open issues by reference, in order of number.
    pub fn entries(&self) -> Entries<'_>
        ensures { result ≡ self.now }
    {
        Entries {
            inner: self.issues.values(),
        }
    }
}
