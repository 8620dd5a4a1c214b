// Who can tell whether items may be issued.
ghost use Rattle.std.specs.Prelude.{◌≡◌, ◌+◌, ◌≤◌, ℕ, List, Bool, Option};
ghost use Rattle.std.specs.Option.{option_copied};
ghost use Rattle.kinds.specs.Cells.{IsStart, last_moment};
ghost use Rattle.kinds.specs.declared.cell.Cell.{Cell};
ghost use Rattle.kinds.specs.declared.cell.CellLimit.{CellLimit};

use kinds::{Cell, CellLimits, Steps};
use std::sync::ledger::Ledger;

/// Says of items whether they may be issued at a moment, by their cells and the start that they wait
/// for.
pub trait Gate {
    ghost is_open: { Self → ℕ → List CellLimit → Option Cell → Bool };

    /// Takes no memory. The moment is in milliseconds since 1970.
    fn open<L: Ledger>(
        &self,
        cells: &CellLimits,
        start: Option<&Cell>,
        t: u64,
        steps: &mut Steps<L>,
    ) -> bool
        requires start { IsStart (option_copied start) }
        requires moment { t ≤ last_moment }
        ensures told { result ≡ is_open self.now t cells.now (option_copied start.entry) }
        ensures asked { steps.new ≡ steps.old + 1 };
}
