// Where a node begins in its source.
ghost use Rattle.std.specs.Prelude.{◌≡◌, drop};
ghost use Rattle.json_text.specs.Starts.{is_between, skipped};

use crate::turn::is_space;
use crate::{Node, Tree};

impl<'a> Tree<'a> {
    ghost use Rattle.std.specs.Prelude.{◌≡◌, ◌<◌, drop};
    ghost use Rattle.json_text.specs.Nodes.{IsNodeOf};
    ghost use Rattle.json_text.specs.Starts.{bytes_before, next_node, start_at};

    /// Where a node's own part of the source begins, in bytes from 0. Takes no memory, and goes past the
    /// parts before the node in each bracket round it, so it is for the one node that is told of.
    pub fn start(&self, node: Node) -> usize
        requires { IsNodeOf self.now node }
        ensures { result ≡ start_at self.now node }
    {
        let target = self.number(node);
        let mut index = 0;
        let mut rest = self.source();
        while index < target {
            (index, rest) = self.toward(target, index, skipped(rest));
        }
        self.source().len().saturating_sub(skipped(rest).len())
    }

    // From a node, with the source from there on: into it where the target is inside, or else past it.
    fn toward(&self, target: usize, index: usize, rest: &'a [u8]) -> (usize, &'a [u8])
        requires node { IsNodeOf self.now index }
        requires before { index < target }
        ensures index { result.0 ≡ next_node self.now target index }
        ensures rest { result.1.now ≡ drop (bytes_before self.now target index) rest.now }
    {
        let node = Node::at(index);
        let next = self.after(node);
        if target < next {
            (index + 1, without(rest, 1))
        } else {
            (next, without(rest, self.slice(node).len()))
        }
    }
}

/// The bytes without those at their front that come between parts.
fn skipped(bytes: &[u8]) -> &[u8]
    ensures { result.now ≡ skipped bytes.now }
{
    let mut rest = bytes;
    while let [first, others @ ..] = rest {
        if !is_between(*first) {
            return rest;
        }
        rest = others;
    }
    rest
}

fn is_between(byte: u8) -> bool
    ensures { result ≡ is_between byte }
{
    is_space(byte) || byte == b',' || byte == b':'
}

/// The bytes behind the first ones.
fn without(bytes: &[u8], count: usize) -> &[u8]
    ensures { result.now ≡ drop count bytes.now }
{
    if count < bytes.len() {
        &bytes[count..]
    } else {
        &[]
    }
}
