// The iterator over queued items.
use crate::boxed::BoxedItem;
use kinds::Item;
use std::collections::btree_map;
use std::marker::Model;

/// The items of a [`ReadyQueue`](crate::ReadyQueue) by reference, in order of number.
#[derive(Drop)]
pub struct Entries<'a> {
    pub(crate) inner: btree_map::Values<'a, u64, BoxedItem>,
}

impl<'a> Model for Entries<'a> {
    ghost use Rattle.std.specs.Prelude.{List};
    ghost use Rattle.kinds.specs.declared.store.Item.{Item};

    ghost Value = { List Item };

    ghost view = { λ e. e.inner };
}

impl<'a> Iterator for Entries<'a> {
    ghost use Rattle.std.specs.Iterator.{YieldsFirstRef, item_count};

    type Item = &'a Item;

    ghost next_gives = { YieldsFirstRef (λ e. e) };

    ghost remaining = { item_count (λ e. e) };

    fn next(&mut self) -> Option<&'a Item> {
        match self.inner.next() {
            Some(item) => Some(item.item()),
            None => None,
        }
    }
}
