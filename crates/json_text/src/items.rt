// The iterator over the items of a list.
use crate::{Node, Tree};
use std::marker::Model;

/// The items of a list, in order. Contracts see the nodes that are left.
#[derive(Drop)]
pub struct ItemNodes<'t, 'a> {
    tree: &'t Tree<'a>,
    next: usize,
    left: usize,
}

impl<'t, 'a> Model for ItemNodes<'t, 'a> {
    ghost use Rattle.std.specs.Prelude.{List, ℕ};
    ghost use Rattle.std.specs.List.{AllByRecursion};
    ghost use Rattle.json_text.specs.Nodes.{IsNodeOf, siblings};

    ghost Value = { List ℕ };

    ghost view = { λ i. siblings i.tree.now i.next i.left };

    ghost invariant = { λ i. AllByRecursion (IsNodeOf i.tree.now) (siblings i.tree.now i.next i.left) };
}

impl<'t, 'a> ItemNodes<'t, 'a> {
    ghost use Rattle.std.specs.Prelude.{◌≡◌};
    ghost use Rattle.std.specs.List.{AllByRecursion};
    ghost use Rattle.json_text.specs.Nodes.{IsNodeOf, siblings};

    // So many nodes of a tree, from this one on.
    pub(crate) fn new(tree: &'t Tree<'a>, next: usize, left: usize) -> Self
        requires { AllByRecursion (IsNodeOf tree.now) (siblings tree.now next left) }
        ensures { result ≡ siblings tree.now next left }
    {
        ItemNodes { tree, next, left }
    }
}

impl<'t, 'a> Iterator for ItemNodes<'t, 'a> {
    type Item = Node;

    ghost use Rattle.std.specs.Iterator.{YieldsFirst, item_count};

    ghost next_gives = { YieldsFirst (λ i. i) };

    ghost remaining = { item_count (λ i. i) };

    fn next(&mut self) -> Option<Node> {
        if self.left == 0 {
            return None;
        }
        let node = Node::at(self.next);
        self.next = self.tree.after(node);
        self.left -= 1;
        Some(node)
    }
}
