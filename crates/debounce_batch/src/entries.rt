// The iterator over open windows.
ghost use Rattle.std.specs.Prelude.{◌≡◌};

use crate::held::Held;
use kinds::Window;
use std::collections::btree_map;
use std::marker::Model;

/// The windows by reference: debounces and then batches, each by number.
#[derive(Drop)]
pub struct Entries<'a> {
    inner: btree_map::Values<'a, (u64, u64), Held>,
}

impl<'a> Model for Entries<'a> {
    ghost use Rattle.std.specs.Prelude.{List};
    ghost use Rattle.kinds.specs.declared.window.Window.{Window};

    ghost Value = { List Window };

    ghost view = { λ e. e.inner };
}

impl<'a> Entries<'a> {
    pub(crate) fn new(inner: btree_map::Values<'a, (u64, u64), Held>) -> Self
        ensures { result ≡ inner.entry }
    {
        Entries { inner }
    }
}

impl<'a> Iterator for Entries<'a> {
    ghost use Rattle.std.specs.Iterator.{YieldsFirstRef, item_count};

    type Item = &'a Window;

    ghost next_gives = { YieldsFirstRef (λ e. e) };

    ghost remaining = { item_count (λ e. e) };

    fn next(&mut self) -> Option<&'a Window> {
        match self.inner.next() {
            Some(held) => Some(held.window()),
            None => None,
        }
    }
}
