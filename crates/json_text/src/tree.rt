// The tree of a text: the public calls.
ghost use Rattle.std.specs.Prelude.{◌≡◌, ◌≤◌, Some, if◌then◌else◌, length, slice_range};
ghost use Rattle.json_text.specs.Same.{known};

use crate::entry::Entry;
use crate::plain::plain_text;
use crate::reader::Reader;
use crate::text::{stands_for, unescaped};
use crate::{ItemNodes, JsonFault, Kind, MemberNodes};
use lists::{Bytes, Memory};
use std::alloc::Global;
use std::marker::Model;
use text_num::{NumFault, read_units};

/// A JSON text as a tree over its source. Contracts see the source and the value that it spells.
#[derive(Drop)]
pub struct Tree<'a> {
    pub(crate) bytes: &'a [u8],
    pub(crate) nodes: Vec<Entry>,
}

impl<'a> Model for Tree<'a> {
    ghost use Rattle.json_text.specs.Nodes.{Document};
    ghost use Rattle.json_text.specs.Trees.{document_code, document_of, IsTree};

    ghost Value = { Document };

    ghost coded = { document_code };

    ghost view = { λ t. document_of t.bytes.now t.nodes.items };

    ghost invariant = { λ t. IsTree t.bytes.now t.nodes.items };
}

/// What a node is: its kind, how many parts it has, and the index behind them.
#[derive(Clone, Copy)]
struct Spot {
    kind: Kind,
    count: usize,
    next: usize,
}

/// A node of a tree. Contracts see it as its place among the nodes.
#[derive(Clone, Copy, Debug, PartialEq, Eq)]
pub struct Node {
    index: usize,
}

impl Model for Node {
    ghost use Rattle.std.specs.Prelude.{ℕ};

    ghost Value = { ℕ };

    ghost view = { λ n. n.index };

    ghost inverse = { λ n. record { index = n } };
}

impl Node {
    ghost use Rattle.std.specs.Prelude.{◌≡◌};

    pub(crate) fn at(index: usize) -> Self
        ensures { result ≡ index }
    {
        Node { index }
    }
}

impl<'a> Tree<'a> {
    ghost use Rattle.std.specs.Prelude.{◌≡◌, ◌+◌, ◌⊎◌, ◌<◌, IfOk, IfErr, IfSome, MatchOption, MatchResult, Ok, Err, Some, None, length, map, option_map, slice_get};
    ghost use Rattle.json_text.specs.Entries.{IsEntry};
    ghost use Rattle.json_text.specs.Grammar.{IsJson, spelling};
    ghost use Rattle.json_text.specs.Plain.{plain_text};
    ghost use Rattle.json_text.specs.Text.{has_text, last_named, member_of, text_of};
    ghost use Rattle.json_text.specs.Same.{units_at};
    ghost use Rattle.json_text.specs.Texts.{read_text, value_read};
    ghost use Rattle.lists.specs.Starved.{OrStarved};
    ghost use Rattle.json_text.specs.declared.fault.JsonFault.TheVariants as fault;
    ghost use Rattle.json_text.specs.declared.kind.Kind.TheVariants as kind;
    ghost use Rattle.json_text.specs.Places.{IsFaultOf};
    ghost use Rattle.json_text.specs.Nodes.{AreNodesOf, IsFound, IsNodeOf, behind, item_nodes, item_of, items_of, key_of, kind_of, len_of, member_nodes, members_of, parts_of, value_at, values_at};
    ghost use Rattle.std.specs.List.{AllByRecursion};

    /// Reads a JSON text (RFC 8259) in UTF-8, without lone surrogates and with at most 64 open brackets.
    /// A fault has the first place where no text goes on so. The time is linear in the bytes.
    pub fn read(alloc: Global, bytes: &'a [u8]) -> Result<Self, JsonFault>
        ensures source { IfOk result (λ tree. tree.source ≡ bytes.now) }
        ensures grammar { MatchResult result (λ tree. IsJson bytes.now tree.value)
            (λ e. IsFaultOf e bytes.now) }
        ensures decided { OrStarved fault.Memory (read_text bytes.now) (value_read result) }
    {
        let mut reader = Reader::new(alloc, bytes);
        for (at, byte) in bytes.iter().enumerate() {
            reader.step(at, *byte)?;
        }
        reader.finish()
    }

    /// The value of the whole text, the first of the nodes.
    pub fn root(&self) -> Node
        ensures first { result ≡ 0 }
        ensures node { IsNodeOf self.now result }
        ensures value { value_at self.now result ≡ self.now.value }
    {
        Node { index: 0 }
    }

    /// What the value at a node is. Takes no memory.
    pub fn kind(&self, node: Node) -> Kind
        requires { IsNodeOf self.now node }
        ensures { result ≡ kind_of (value_at self.now node) }
    {
        self.entry(node.index).kind
    }

    /// The number of items of a list or of members of an object, and 0 for the other kinds.
    pub fn len(&self, node: Node) -> usize
        requires { IsNodeOf self.now node }
        ensures { result ≡ len_of (value_at self.now node) }
    {
        let entry = self.entry(node.index);
        match entry.kind {
            Kind::List => entry.count,
            Kind::Object => entry.count / 2,
            _ => 0,
        }
    }

    /// The k-th item of a list, or the value of the k-th member of an object, from 0.
    pub fn item(&self, node: Node, k: usize) -> Option<Node>
        requires { IsNodeOf self.now node }
        ensures { IsFound self.now (item_of (value_at self.now node) k) result }
    {
        let entry = self.entry(node.index);
        match entry.kind {
            Kind::List => self.part(node, k),
            Kind::Object if k < entry.count / 2 => self.part(node, 2 * k + 1),
            _ => None,
        }
    }

    /// The items of a list in order, and none of the other kinds. To go on to the next takes constant
    /// time, where `item` takes as many steps as there are items before.
    pub fn items(&self, node: Node) -> ItemNodes<'_, 'a>
        requires { IsNodeOf self.now node }
        ensures nodes { result ≡ item_nodes self.now node }
        ensures there { AllByRecursion (IsNodeOf self.now) result }
        ensures values { map (value_at self.now) result ≡ items_of (value_at self.now node) }
    {
        let count = self.item_count(node);
        ItemNodes::new(self, node.index + 1, count)
    }

    fn item_count(&self, node: Node) -> usize
        requires { IsNodeOf self.now node }
        ensures count { result ≡ length (items_of (value_at self.now node)) }
        ensures fits { node + 1 < 18446744073709551616 }
    {
        let entry = self.entry(node.index);
        match entry.kind {
            Kind::List => entry.count,
            _ => 0,
        }
    }

    /// The members of an object in order, each by the nodes of its name and its value, and none of the
    /// other kinds. To go on to the next takes constant time.
    pub fn members(&self, node: Node) -> MemberNodes<'_, 'a>
        requires { IsNodeOf self.now node }
        ensures nodes { result ≡ member_nodes self.now node }
        ensures there { AllByRecursion (AreNodesOf self.now) result }
        ensures values { map (values_at self.now) result ≡ members_of (value_at self.now node) }
    {
        let count = self.member_count(node);
        MemberNodes::new(self, node.index + 1, count)
    }

    fn member_count(&self, node: Node) -> usize
        requires { IsNodeOf self.now node }
        ensures count { result ≡ length (members_of (value_at self.now node)) }
        ensures fits { node + 1 < 18446744073709551616 }
    {
        let entry = self.entry(node.index);
        match entry.kind {
            Kind::Object => entry.count / 2,
            _ => 0,
        }
    }

    /// The name of the k-th member of an object, from 0: a text.
    pub fn key(&self, node: Node, k: usize) -> Option<Node>
        requires { IsNodeOf self.now node }
        ensures { IsFound self.now (key_of (value_at self.now node) k) result }
    {
        let entry = self.entry(node.index);
        match entry.kind {
            Kind::Object if k <= entry.count / 2 => self.part(node, 2 * k),
            _ => None,
        }
    }

    /// The value of the last member of an object whose name is this text, unescaped. None of other
    /// kinds. Takes no memory.
    pub fn member(&self, node: Node, name: &[u8]) -> Option<Node>
        requires { IsNodeOf self.now node }
        ensures { IsFound self.now (member_of (value_at self.now node) name.now) result }
    {
        if self.kind(node) == Kind::Object {
            self.last_named(node, name)
        } else {
            None
        }
    }

    fn last_named(&self, node: Node, name: &[u8]) -> Option<Node>
        requires { IsNodeOf self.now node }
        ensures { IsFound self.now (last_named name.now (parts_of (value_at self.now node))) result }
    {
        let count = self.entry(node.index).count / 2;
        let mut found = None;
        let mut index = node.index + 1;
        for _member in 0..count {
            let value = self.entry(index).next;
            let named = stands_for(self.spelling(index), name);
            found = newer(named, Node { index: value }, found);
            index = self.entry(value).next;
        }
        found
    }

    /// The node's own part of the source, without the spaces around it.
    pub fn slice(&self, node: Node) -> &'a [u8]
        requires { IsNodeOf self.now node }
        ensures { result.now ≡ spelling (value_at self.now node) }
    {
        self.spelling(node.index)
    }

    /// The unescaped text of a string.
    pub fn text_of(&self, node: Node) -> Result<Bytes, Memory>
        requires node { IsNodeOf self.now node }
        requires text { kind_of (value_at self.now node) ≡ kind.Text }
        ensures { IfOk result (λ text. text ≡ text_of (value_at self.now node)) }
    {
        unescaped(*self.nodes.allocator(), self.spelling(node.index))
    }

    /// The text of a string as it stands in the source, where no character of it is escaped. Takes no memory.
    pub fn plain_text(&self, node: Node) -> Option<&'a [u8]>
        requires node { IsNodeOf self.now node }
        requires text { kind_of (value_at self.now node) ≡ kind.Text }
        ensures place { option_map (λ text. text.now) result ≡ plain_text (value_at self.now node) }
        ensures text { IfSome result (λ text. text.now ≡ text_of (value_at self.now node)) }
    {
        plain_text(self.spelling(node.index))
    }

    /// Whether a node is a string whose unescaped text is this. Takes no memory.
    pub fn is_text(&self, node: Node, text: &[u8]) -> bool
        requires { IsNodeOf self.now node }
        ensures { result ≡ has_text text.now (value_at self.now node) }
    {
        self.kind(node) == Kind::Text && stands_for(self.spelling(node.index), text)
    }

    /// A number as a multiple of 10^-18, or None where it is no whole multiple or its absolute value
    /// isn't below 10^20. Takes no memory.
    pub fn units(&self, node: Node) -> Option<i128>
        requires node { IsNodeOf self.now node }
        requires number { kind_of (value_at self.now node) ≡ kind.Number }
        ensures { result ≡ units_at (value_at self.now node) }
    {
        known(read_units(self.spelling(node.index)))
    }

    fn spelling(&self, index: usize) -> &'a [u8]
        requires { IsNodeOf self.now index }
        ensures { result.now ≡ spelling (value_at self.now index) }
    {
        let entry = self.entry_at(index);
        part_of(self.bytes, entry.start as usize, entry.stop as usize)
    }

    fn entry_at(&self, index: usize) -> Entry
        requires { IsNodeOf self.now index }
        ensures { IsEntry self.now.source index result (value_at self.now index) }
    {
        self.nodes.as_slice()[index]
    }

    pub(crate) fn number(&self, node: Node) -> usize
        ensures { result ≡ node }
    {
        node.index
    }

    pub(crate) fn source(&self) -> &'a [u8]
        ensures { result.now ≡ self.now.source }
    {
        self.bytes
    }

    // The number behind all the nodes of this one.
    pub(crate) fn after(&self, node: Node) -> usize
        requires { IsNodeOf self.now node }
        ensures { result ≡ behind self.now node }
    {
        self.entry(node.index).next
    }

    fn entry(&self, index: usize) -> Spot
        requires { IsNodeOf self.now index }
        ensures kind { result.kind ≡ kind_of (value_at self.now index) }
        ensures count { result.count ≡ length (parts_of (value_at self.now index)) }
        ensures next { result.next ≡ behind self.now index }
    {
        let entry = self.entry_at(index);
        Spot {
            kind: entry.kind,
            count: entry.count as usize,
            next: entry.next as usize,
        }
    }

    /// The k-th of the values of a list, or of the names and values of an object.
    fn part(&self, node: Node, k: usize) -> Option<Node>
        requires { IsNodeOf self.now node }
        ensures { IsFound self.now (slice_get (parts_of (value_at self.now node)) k) result }
    {
        if k >= self.entry(node.index).count {
            return None;
        }
        let mut index = node.index + 1;
        for _step in 0..k {
            index = self.entry(index).next;
        }
        Some(Node { index })
    }
}

fn newer(named: bool, value: Node, found: Option<Node>) -> Option<Node>
    ensures { result ≡ (if named then Some value else found) }
{
    if named { Some(value) } else { found }
}

fn known(units: Result<i128, NumFault>) -> Option<i128>
    ensures { result ≡ known units }
{
    match units {
        Ok(units) => Some(units),
        Err(_) => None,
    }
}

fn part_of(bytes: &[u8], start: usize, stop: usize) -> &[u8]
    requires ordered { start ≤ stop }
    requires within { stop ≤ length bytes.now }
    ensures { result.now ≡ slice_range bytes.now start stop }
{
    &bytes[start..stop]
}
