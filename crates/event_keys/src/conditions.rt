// Conditions, keys and priorities over events.
ghost use Rattle.std.specs.Prelude.{◌≡◌, ◌+◌, IfOk};
ghost use Rattle.std.specs.Option.{option_copied};
ghost use Rattle.event_keys.specs.Expressions.{holds_over, holds_over_both, key_value, priority_shift};

use crate::ReadEvent;
use crate::answers::{cell_text, is_true, shift_of};
use expr::Expr;
use kinds::Steps;
use lists::{Bytes, Memory};
use std::alloc::Global;
use std::sync::ledger::Ledger;

impl<'a> ReadEvent<'a> {
    /// Whether a condition is absent or true of the event.
    pub fn holds(&self, alloc: Global, cond: Option<&Expr>) -> Result<bool, Memory>
        ensures { IfOk result (λ b. b ≡ holds_over (option_copied cond.entry) self.now) }
    {
        match cond {
            Some(expr) => is_true(self.worth(alloc, expr)),
            None => Ok(true),
        }
    }

    /// Whether a condition is true of the event, as the first of a run, and of a fresh one. Counts as
    /// one evaluation.
    pub fn holds_both<L: Ledger>(
        &self,
        alloc: Global,
        expr: &Expr,
        fresh: &ReadEvent<'_>,
        steps: &mut Steps<L>,
    ) -> Result<bool, Memory>
        ensures value { IfOk result (λ b. b ≡ holds_over_both expr.now self.now fresh.now) }
        ensures once { steps.new ≡ steps.old + 1 }
    {
        is_true(self.worth_beside(alloc, expr, fresh, steps))
    }

    /// The value of a key as a cell or a window has it: empty where there is no key, and `!` where it
    /// fails.
    pub fn key_value(&self, alloc: Global, key: Option<&Expr>) -> Result<Bytes, Memory>
        ensures { IfOk result (λ text. text ≡ key_value (option_copied key.entry) self.now) }
    {
        match key {
            Some(expr) => cell_text(alloc, self.worth(alloc, expr)),
            None => Ok(Bytes::new(alloc)),
        }
    }

    /// How far a run that the event begins goes before others of its moment, by the priority of its
    /// function: in seconds, from -600 to 600. It is 0 where the priority isn't a whole number, or fails.
    pub fn priority_shift(&self, alloc: Global, priority: Option<&Expr>) -> Result<i64, Memory>
        ensures { IfOk result (λ n. n ≡ priority_shift (option_copied priority.entry) self.now) }
    {
        match priority {
            Some(expr) => shift_of(self.worth(alloc, expr)),
            None => Ok(0),
        }
    }
}
