// The gate of a server: cells and throttles.
ghost use Rattle.std.specs.Prelude.{◌≡◌, ◌≤◌};
ghost use Rattle.std.specs.Option.{option_copied};
ghost use Rattle.kinds.specs.Cells.{IsStart, last_moment, may_start};

use crate::Gate;
use concurrency_keys::ConcurrencyKeys;
use kinds::{Cell, CellLimits, Steps};
use std::sync::ledger::Ledger;
use throttle::Starts;

/// The gate of a server: open where none of the cells is full, and the throttle, where there is one,
/// lets a run start at the moment.
#[derive(Drop)]
pub struct Admission<'a> {
    /// The open calls by cell.
    pub cells: &'a ConcurrencyKeys,
    /// The starts of throttles.
    pub throttle: &'a Starts,
}

fn may_start(starts: &Starts, start: Option<&Cell>, t: u64) -> bool
    requires start { IsStart (option_copied start) }
    requires moment { t ≤ last_moment }
    ensures { result ≡ may_start (option_copied start.entry) t starts.now }
{
    match start {
        Some(cell) => starts.allowed(cell, t),
        None => true,
    }
}

impl<'a> Gate for Admission<'a> {
    ghost use Rattle.kinds.specs.Queue.{admits};

    ghost is_open = { λ a t cells start. admits a.cells.now a.throttle.now t cells start };

    fn open<L: Ledger>(
        &self,
        cells: &CellLimits,
        start: Option<&Cell>,
        t: u64,
        steps: &mut Steps<L>,
    ) -> bool {
        steps.tick();
        self.cells.free(cells) && may_start(self.throttle, start, t)
    }
}
