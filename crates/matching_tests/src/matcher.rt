// The events and conditions of the examples, and what is true of them.
ghost use Rattle.std.specs.Prelude.{◌≡◌, decimal, IfOk};

use expr::{Expr, Term};
use kinds::{Event, Matcher, PathMatcher, Steps};
use lists::{Bytes, Memory};
use std::alloc::Global;
use std::cell::Cell;
use std::sync::ledger::Ledger;

/// A condition is true of an event that has the number of the first one. Each path has one value.
#[derive(Drop)]
pub struct OwnNumber {
    pub value: Bytes,
    /// How often a condition was evaluated.
    calls: Cell<u64>,
}

impl Matcher for OwnNumber {
    ghost use Rattle.matching_tests.specs.Rows.{is_own};

    ghost is_true = { λ m. is_own };

    fn holds<L: Ledger>(
        &self,
        _expr: &Expr,
        first: u64,
        fresh: &Event,
        steps: &mut Steps<L>,
    ) -> Result<bool, Memory> {
        steps.tick();
        self.calls.set(self.calls.get().wrapping_add(1));
        Ok(first == fresh.number)
    }
}

impl PathMatcher for OwnNumber {
    ghost use Rattle.matching_tests.specs.Rows.{given};

    ghost value_of = { λ m. given m.value };

    fn value_at(&self, _event: &Event, _path: &[Bytes]) -> Result<Option<Bytes>, Memory> {
        Ok(Some(self.value.clone()?))
    }
}

impl OwnNumber {
    pub fn new(value: Bytes) -> Self
        ensures { result.value ≡ value }
    {
        OwnNumber {
            value,
            calls: Cell::new(0),
        }
    }

    /// How often a condition was evaluated.
    pub fn calls(&self) -> u64 {
        self.calls.get()
    }
}

pub fn digits(alloc: Global, number: u64) -> Result<Bytes, Memory>
    ensures { IfOk result (λ b. b ≡ decimal number) }
{
    let mut text = Bytes::new(alloc);
    text.push_decimal(number)?;
    Ok(text)
}

pub fn event(alloc: Global, number: u64) -> Result<Event, Memory>
    ensures { IfOk result (λ e. e.number ≡ number) }
{
    Ok(Event {
        number,
        name: Bytes::from_slice(alloc, b"y")?,
        text: Bytes::new(alloc),
    })
}

/// Some condition; the matcher looks at the first event's number alone.
pub fn condition(alloc: Global) -> Result<Expr, Memory> {
    Expr::new(alloc, Bytes::from_slice(alloc, b"null")?, Term::Null)
}
