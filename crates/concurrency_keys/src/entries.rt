// The iterator over open issues.
use kinds::IssueEntry;
use std::collections::btree_map;
use std::marker::Model;

/// The open issues of [`ConcurrencyKeys`](crate::ConcurrencyKeys) by reference, in order of number.
#[derive(Drop)]
pub struct Entries<'a> {
    pub(crate) inner: btree_map::Values<'a, u64, IssueEntry>,
}

impl<'a> Model for Entries<'a> {
    ghost use Rattle.std.specs.Prelude.{List};
    ghost use Rattle.kinds.specs.declared.cell.IssueEntry.{IssueEntry};

    ghost Value = { List IssueEntry };

    ghost view = { λ e. e.inner };
}

impl<'a> Iterator for Entries<'a> {
    ghost use Rattle.std.specs.Iterator.{YieldsFirstRef, item_count};

    type Item = &'a IssueEntry;

    ghost next_gives = { YieldsFirstRef (λ e. e) };

    ghost remaining = { item_count (λ e. e) };

    fn next(&mut self) -> Option<&'a IssueEntry> {
        self.inner.next()
    }
}
