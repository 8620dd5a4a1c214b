// The iterator over accepted events.
use crate::EventText;
use std::collections::btree_map;
use std::marker::Model;

/// The events of [`Texts`](crate::Texts) by reference, in order of number.
#[derive(Drop)]
pub struct Entries<'a> {
    pub(crate) inner: btree_map::Values<'a, u64, EventText>,
}

impl<'a> Model for Entries<'a> {
    ghost use Rattle.std.specs.Prelude.{List};
    ghost use Rattle.event_texts.specs.declared.texts.EventText.{EventText};

    ghost Value = { List EventText };

    ghost view = { λ e. e.inner };
}

impl<'a> Iterator for Entries<'a> {
    ghost use Rattle.std.specs.Iterator.{YieldsFirstRef, item_count};

    type Item = &'a EventText;

    ghost next_gives = { YieldsFirstRef (λ e. e) };

    ghost remaining = { item_count (λ e. e) };

    fn next(&mut self) -> Option<&'a EventText> {
        self.inner.next()
    }
}
