// A value in the text of an event.
ghost use Rattle.std.specs.Prelude.{◌≡◌, IfOk, slice_get};
ghost use Rattle.json_text.specs.Grammar.{spelling};
ghost use Rattle.json_text.specs.Nodes.{kind_of, len_of, item_of, items_of, IsNodeOf, value_at};
ghost use Rattle.json_text.specs.Same.{comparison, in_range};
ghost use Rattle.json_text.specs.Text.{member_of, has_text, text_of};
ghost use Rattle.json_text.specs.declared.kind.Kind.TheVariants as kind;
ghost use Rattle.text_num.specs.Units.{units_of};
ghost use Rattle.cel_eval.specs.Data.{units_within, is_true};
ghost use Rattle.cel_eval.specs.Equality.{is_same};

use crate::EvalFault;
use crate::units::Units;
use json_text::{Comparison, ItemNodes, Kind, Node, Tree};
use lists::{Bytes, Memory};
use std::marker::Model;
use text_num::read_units;

/// A value in a JSON text. Contracts see it as that value.
#[derive(Drop)]
pub(crate) struct Part<'t, 'a> {
    tree: &'t Tree<'a>,
    node: Node,
}

impl<'t, 'a> Model for Part<'t, 'a> {
    ghost use Rattle.json_text.specs.Grammar.{Json};
    ghost use Rattle.cel_eval.specs.Data.{json_code};
    ghost use Rattle.json_text.specs.Nodes.{IsNodeOf, value_at};

    ghost Value = { Json };

    ghost coded = { json_code };

    ghost view = { λ p. value_at p.tree.now p.node };

    ghost invariant = { λ p. IsNodeOf p.tree.now p.node };
}

impl<'t, 'a> Part<'t, 'a> {
    pub(crate) fn whole(tree: &'t Tree<'a>) -> Self
        ensures { result ≡ tree.now.value }
    {
        Part {
            tree,
            node: tree.root(),
        }
    }

    pub(crate) fn at(tree: &'t Tree<'a>, node: Node) -> Self
        requires { IsNodeOf tree.now node }
        ensures { result ≡ value_at tree.now node }
    {
        Part { tree, node }
    }

    pub(crate) fn kind(&self) -> Kind
        ensures { result ≡ kind_of self.now }
    {
        self.tree.kind(self.node)
    }

    pub(crate) fn len(&self) -> usize
        ensures { result ≡ len_of self.now }
    {
        self.tree.len(self.node)
    }

    /// The value of the last member of this name.
    pub(crate) fn member(&self, name: &[u8]) -> Option<Part<'t, 'a>>
        ensures { result ≡ member_of self.now name.now }
    {
        let node = self.tree.member(self.node, name)?;
        Some(Part {
            tree: self.tree,
            node,
        })
    }

    /// The items of a list in order, and none of the other kinds.
    pub(crate) fn items(&self) -> PartItems<'t, 'a>
        ensures { result ≡ items_of self.now }
    {
        PartItems {
            tree: self.tree,
            nodes: self.tree.items(self.node),
        }
    }

    /// The k-th item of a list, from 0.
    pub(crate) fn item(&self, k: u128) -> Option<Part<'t, 'a>>
        ensures { result ≡ slice_get (items_of self.now) k }
    {
        match self.kind() {
            Kind::List if k < self.len() as u128 => self.part(k as usize),
            _ => None,
        }
    }

    fn part(&self, k: usize) -> Option<Part<'t, 'a>>
        ensures { result ≡ item_of self.now k }
    {
        let node = self.tree.item(self.node, k)?;
        Some(Part {
            tree: self.tree,
            node,
        })
    }

    pub(crate) fn is_text(&self, text: &[u8]) -> bool
        ensures { result ≡ has_text text.now self.now }
    {
        self.tree.is_text(self.node, text)
    }

    /// The part of the source.
    pub(crate) fn spelling(&self) -> &'a [u8]
        ensures { result.now ≡ spelling self.now }
    {
        self.tree.slice(self.node)
    }

    /// The text of a string.
    pub(crate) fn unescaped(&self) -> Result<Bytes, Memory>
        requires { kind_of self.now ≡ kind.Text }
        ensures { IfOk result (λ text. text ≡ text_of self.now) }
    {
        self.tree.text_of(self.node)
    }

    /// Of a literal, whether it is `true`.
    pub(crate) fn is_true(&self) -> bool
        ensures { result ≡ is_true self.now }
    {
        self.spelling() == b"true".as_slice()
    }

    /// The units of a number.
    pub(crate) fn units(&self) -> Result<Units, EvalFault>
        ensures { result ≡ units_within (units_of (spelling self.now)) }
    {
        match read_units(self.spelling()) {
            Ok(units) => Units::new(units),
            Err(_) => Err(EvalFault::Range),
        }
    }

    pub(crate) fn compare(&self, other: &Part<'_, '_>) -> Result<Comparison, Memory>
        ensures { IfOk result (λ c. c ≡ comparison self.now other.now) }
    {
        self.tree.compare(self.node, other.tree, other.node)
    }

    /// Whether each number that counts is in range.
    pub(crate) fn in_range(&self) -> Result<bool, Memory>
        ensures { IfOk result (λ b. b ≡ in_range self.now) }
    {
        Ok(self.tree.canonical(self.node)?.is_some())
    }

    pub(crate) fn is_same(&self, other: &Part<'_, '_>) -> Result<bool, Memory>
        ensures { IfOk result (λ b. b ≡ is_same (comparison self.now other.now)) }
    {
        match self.compare(other)? {
            Comparison::Equal => Ok(true),
            _ => Ok(false),
        }
    }
}

/// The items of a list of a JSON text, in order. Contracts see those that are left.
#[derive(Drop)]
pub(crate) struct PartItems<'t, 'a> {
    tree: &'t Tree<'a>,
    nodes: ItemNodes<'t, 'a>,
}

impl<'t, 'a> Model for PartItems<'t, 'a> {
    ghost use Rattle.std.specs.Prelude.{List, map};
    ghost use Rattle.std.specs.List.{AllByRecursion};
    ghost use Rattle.std.specs.Coded.{coded_list};
    ghost use Rattle.cel_eval.specs.Data.{json_code};
    ghost use Rattle.json_text.specs.Grammar.{Json};
    ghost use Rattle.json_text.specs.Nodes.{IsNodeOf, value_at};

    ghost Value = { List Json };

    ghost coded = { coded_list json_code };

    ghost view = { λ i. map (value_at i.tree.now) i.nodes };

    ghost invariant = { λ i. AllByRecursion (IsNodeOf i.tree.now) i.nodes };
}

impl<'t, 'a> Iterator for PartItems<'t, 'a> {
    type Item = Part<'t, 'a>;

    ghost use Rattle.std.specs.Iterator.{YieldsFirst, item_count};

    ghost next_gives = { YieldsFirst (λ i. i) };

    ghost remaining = { item_count (λ i. i) };

    fn next(&mut self) -> Option<Part<'t, 'a>> {
        let node = self.nodes.next()?;
        Some(Part {
            tree: self.tree,
            node,
        })
    }
}
