// The members of an operation, found in one pass.
ghost use Rattle.std.specs.Prelude.{◌≡◌};
ghost use Rattle.json_text.specs.Plain.{is_no_escape, is_plain};

use crate::members::{inside, member_of};
use json_text::{Node, Tree};

/// The members of an operation that its step and its kind are read of, each the last of its name.
#[derive(Clone, Copy)]
pub(crate) struct OpMembers {
    pub(crate) id: Option<Node>,
    pub(crate) op: Option<Node>,
    pub(crate) data: Option<Node>,
    pub(crate) error: Option<Node>,
    pub(crate) opts: Option<Node>,
    pub(crate) name: Option<Node>,
}

impl OpMembers {
    ghost use Rattle.std.specs.Prelude.{◌≡◌, IfSome};
    ghost use Rattle.json_text.specs.Nodes.{IsNodeOf, value_at};
    ghost use Rattle.json_text.specs.Plain.{is_plain};
    ghost use Rattle.sdk_reply.specs.Found.{AreMembers, with_member};

    /// Of the operation at a node, in one pass where no name has an escape.
    pub(crate) fn of(tree: &Tree<'_>, node: Node) -> Self
        requires { IsNodeOf tree.now node }
        ensures { AreMembers tree.now (value_at tree.now node) result }
    {
        match OpMembers::plain(tree, node) {
            Some(members) => members,
            None => OpMembers::looked_up(tree, node),
        }
    }

    /// The same, where no name has an escape.
    fn plain(tree: &Tree<'_>, node: Node) -> Option<Self>
        requires { IsNodeOf tree.now node }
        ensures { IfSome result (AreMembers tree.now (value_at tree.now node)) }
    {
        let mut members = OpMembers {
            id: None,
            op: None,
            data: None,
            error: None,
            opts: None,
            name: None,
        };
        for (name, value) in tree.members(node) {
            if !members.take(inside(tree.slice(name)), value) {
                return None;
            }
        }
        Some(members)
    }

    /// The same, one name at a time.
    #[inline(never)]
    fn looked_up(tree: &Tree<'_>, node: Node) -> Self
        requires { IsNodeOf tree.now node }
        ensures { AreMembers tree.now (value_at tree.now node) result }
    {
        OpMembers {
            id: member_of(tree, node, b"id"),
            op: member_of(tree, node, b"op"),
            data: member_of(tree, node, b"data"),
            error: member_of(tree, node, b"error"),
            opts: member_of(tree, node, b"opts"),
            name: member_of(tree, node, b"name"),
        }
    }

    /// With one more member behind the others. False where its name has an escape: those that are read
    /// have none, so that only the others are searched for one.
    fn take(&mut self, name: &[u8], value: Node) -> bool
        ensures plain { result ≡ is_plain name.now }
        ensures members { self.new ≡ with_member self.old name.now value }
    {
        if name == b"id".as_slice() {
            self.id = Some(value);
            true
        } else if name == b"op".as_slice() {
            self.op = Some(value);
            true
        } else if name == b"data".as_slice() {
            self.data = Some(value);
            true
        } else if name == b"error".as_slice() {
            self.error = Some(value);
            true
        } else if name == b"opts".as_slice() {
            self.opts = Some(value);
            true
        } else if name == b"name".as_slice() {
            self.name = Some(value);
            true
        } else {
            is_plain(name)
        }
    }
}

/// Whether a string stands for itself between its quotes.
fn is_plain(text: &[u8]) -> bool
    ensures { result ≡ is_plain text.now }
{
    text.iter().all(|byte| is_no_escape(*byte))
}

fn is_no_escape(byte: u8) -> bool
    ensures { result ≡ is_no_escape byte }
{
    byte != b'\\'
}
