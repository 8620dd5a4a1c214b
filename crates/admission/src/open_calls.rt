// The iterator over open calls.
ghost use Rattle.std.specs.Prelude.{◌≡◌};

use crate::issue::Issue;
use std::collections::btree_map;
use std::marker::Model;

/// The open calls of an [`Admission`](crate::Admission) by reference, in order of number.
#[derive(Drop)]
pub struct OpenCalls<'a> {
    inner: btree_map::Values<'a, u64, Issue>,
}

impl<'a> Model for OpenCalls<'a> {
    ghost use Rattle.std.specs.Prelude.{List};
    ghost use Rattle.admission.specs.declared.issue.Issue.{Issue};

    ghost Value = { List Issue };

    ghost view = { λ e. e.inner };
}

impl<'a> OpenCalls<'a> {
    pub(crate) fn new(inner: btree_map::Values<'a, u64, Issue>) -> Self
        ensures { result ≡ inner.entry }
    {
        OpenCalls { inner }
    }
}

impl<'a> Iterator for OpenCalls<'a> {
    ghost use Rattle.std.specs.Iterator.{YieldsFirstRef, item_count};

    type Item = &'a Issue;

    ghost next_gives = { YieldsFirstRef (λ e. e) };

    ghost remaining = { item_count (λ e. e) };

    fn next(&mut self) -> Option<&'a Issue> {
        self.inner.next()
    }
}
