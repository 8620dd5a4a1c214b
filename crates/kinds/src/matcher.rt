// Who can tell whether conditions are true.
ghost use Rattle.std.specs.Prelude.{◌≡◌, ◌+◌, ℕ, List, Bool, IfOk, Option};
ghost use Rattle.kinds.specs.declared.event.Event.{Event};

use crate::{Event, Steps};
use expr::Expr;
use lists::{Bytes, Memory};
use std::sync::ledger::Ledger;

/// Who can tell whether a condition is true of two events.
pub trait Matcher {
    /// Whether the expression of this text is true of the event with this number and the fresh one.
    ghost is_true: { Self → List ℕ → ℕ → Event → Bool };

    /// Evaluates a condition, with `event` the event numbered `first` and `async` the fresh one.
    fn holds<L: Ledger>(
        &self,
        expr: &Expr,
        first: u64,
        fresh: &Event,
        steps: &mut Steps<L>,
    ) -> Result<bool, Memory>
        ensures told { IfOk result (λ b. b ≡ is_true self.now expr.now first fresh.now) }
        ensures once { steps.new ≡ steps.old + 1 };
}

/// Who can also tell what an event has at a path.
pub trait PathMatcher: Matcher {
    /// The cell value of the member at the path, where it has one.
    ghost value_of: { Self → Event → List (List ℕ) → Option (List ℕ) };

    /// The cell value of the event's member at a path. None where the path has no member, or where its
    /// value is a list, an object or a number out of range.
    fn value_at(&self, event: &Event, path: &[Bytes]) -> Result<Option<Bytes>, Memory>
        ensures { IfOk result (λ v. v ≡ value_of self.now event.now path.now) };
}
