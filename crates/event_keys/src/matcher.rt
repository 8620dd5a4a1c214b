// A fresh event is matched with waits and cancel rules.
ghost use Rattle.std.specs.Prelude.{◌≡◌, ◌+◌, ℕ, List, Option, IfOk};
ghost use Rattle.std.specs.Option.{option_copied};
ghost use Rattle.event_keys.specs.Matching.{true_after};

use crate::ReadEvent;
use expr::Expr;
use kinds::{Event, Matcher, PathMatcher, Steps};
use lists::{Bytes, Memory};
use std::alloc::Global;
use std::sync::ledger::Ledger;

/// Who has the texts of events by number.
pub trait EventTexts {
    /// The text of the event with a number, where it is there.
    ghost text_of: { Self → ℕ → Option (List ℕ) };

    /// The text of the event with this number.
    fn text(&self, number: u64) -> Option<&[u8]>
        ensures { option_copied result ≡ text_of self.now number };
}

/// Tells whether conditions are true of one fresh event, whichever event it is asked about. That one
/// was read once; the texts of first events are read as they are asked for. No condition is true of a
/// first event whose text isn't there.
#[derive(Drop)]
pub struct FreshMatcher<'a, T: EventTexts> {
    /// Where memory comes from.
    pub alloc: Global,
    /// The texts of accepted events, by number.
    pub texts: &'a T,
    /// The event that conditions are matched with.
    pub fresh: &'a ReadEvent<'a>,
}

impl<'a, T: EventTexts> Matcher for FreshMatcher<'a, T> {
    ghost use Rattle.event_keys.specs.Matching.{truth_with};

    ghost is_true = { λ m. truth_with (T.text_of m.texts.now) m.fresh.now };

    #[tactic(auto, unfolding(crate::specs::Matching::truth_with))]
    fn holds<L: Ledger>(
        &self,
        expr: &Expr,
        first: u64,
        _event: &Event,
        steps: &mut Steps<L>,
    ) -> Result<bool, Memory> {
        is_true_after(self.alloc, expr, self.texts.text(first), self.fresh, steps)
    }
}

impl<'a, T: EventTexts> PathMatcher for FreshMatcher<'a, T> {
    ghost use Rattle.event_keys.specs.Matching.{values_with};

    ghost value_of = { λ m. values_with m.fresh.now };

    #[tactic(auto, unfolding(crate::specs::Matching::values_with))]
    fn value_at(&self, _event: &Event, path: &[Bytes]) -> Result<Option<Bytes>, Memory> {
        self.fresh.value_at(self.alloc, path)
    }
}

fn is_true_after<L: Ledger>(
    alloc: Global,
    expr: &Expr,
    first: Option<&[u8]>,
    fresh: &ReadEvent<'_>,
    steps: &mut Steps<L>,
) -> Result<bool, Memory>
    ensures value { IfOk result (λ b. b
        ≡ true_after expr.now (option_copied first.entry) fresh.now) }
    ensures once { steps.new ≡ steps.old + 1 }
{
    let Some(text) = first else {
        steps.tick();
        return Ok(false);
    };
    match ReadEvent::read(alloc, text) {
        Ok(event) => event.holds_both(alloc, expr, fresh, steps),
        Err(Memory) => {
            steps.tick();
            Err(Memory)
        }
    }
}
