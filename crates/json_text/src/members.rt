// The iterator over the members of an object.
use crate::{Node, Tree};
use std::marker::Model;

/// The members of an object, in order: the nodes of each name and its value. Contracts see the pairs of
/// nodes that are left.
#[derive(Drop)]
pub struct MemberNodes<'t, 'a> {
    tree: &'t Tree<'a>,
    next: usize,
    left: usize,
}

impl<'t, 'a> Model for MemberNodes<'t, 'a> {
    ghost use Rattle.std.specs.Prelude.{List, ℕ};
    ghost use Rattle.std.specs.List.{AllByRecursion};
    ghost use Rattle.json_text.specs.Nodes.{AreNodesOf, sibling_pairs};

    ghost Value = { List (ℕ × ℕ) };

    ghost view = { λ m. sibling_pairs m.tree.now m.next m.left };

    ghost invariant = { λ m.
        AllByRecursion (AreNodesOf m.tree.now) (sibling_pairs m.tree.now m.next m.left) };
}

impl<'t, 'a> MemberNodes<'t, 'a> {
    ghost use Rattle.std.specs.Prelude.{◌≡◌};
    ghost use Rattle.std.specs.List.{AllByRecursion};
    ghost use Rattle.json_text.specs.Nodes.{AreNodesOf, sibling_pairs};

    // So many members, from the name at this node on.
    pub(crate) fn new(tree: &'t Tree<'a>, next: usize, left: usize) -> Self
        requires { AllByRecursion (AreNodesOf tree.now) (sibling_pairs tree.now next left) }
        ensures { result ≡ sibling_pairs tree.now next left }
    {
        MemberNodes { tree, next, left }
    }
}

impl<'t, 'a> Iterator for MemberNodes<'t, 'a> {
    type Item = (Node, Node);

    ghost use Rattle.std.specs.Iterator.{YieldsFirst, item_count};

    ghost next_gives = { YieldsFirst (λ m. m) };

    ghost remaining = { item_count (λ m. m) };

    fn next(&mut self) -> Option<(Node, Node)> {
        if self.left == 0 {
            return None;
        }
        let name = Node::at(self.next);
        let value = Node::at(self.tree.after(name));
        self.next = self.tree.after(value);
        self.left -= 1;
        Some((name, value))
    }
}
