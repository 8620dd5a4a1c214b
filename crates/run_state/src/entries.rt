// The iterator over recorded steps.
ghost use Rattle.std.specs.Prelude.{◌≡◌};

use kinds::StepEntry;
use std::marker::Model;
use std::slice;

/// The recorded steps of a run by reference, in the order of recording.
#[derive(Drop)]
pub struct Entries<'a> {
    inner: slice::Iter<'a, StepEntry>,
}

impl<'a> Model for Entries<'a> {
    ghost use Rattle.std.specs.Prelude.{List};
    ghost use Rattle.std.specs.Slice.Iter.{iter_rest};
    ghost use Rattle.kinds.specs.declared.store.StepEntry.{StepEntry};

    ghost Value = { List StepEntry };

    ghost view = { λ e. iter_rest e.inner };
}

impl<'a> Entries<'a> {
    pub(crate) fn new(steps: &'a [StepEntry]) -> Self
        ensures { result ≡ steps.now }
    {
        Entries {
            inner: steps.iter(),
        }
    }
}

impl<'a> Iterator for Entries<'a> {
    ghost use Rattle.std.specs.Iterator.{YieldsFirstRef, item_count};

    type Item = &'a StepEntry;

    ghost next_gives = { YieldsFirstRef (λ e. e) };

    ghost remaining = { item_count (λ e. e) };

    fn next(&mut self) -> Option<&'a StepEntry> {
        self.inner.next()
    }
}
