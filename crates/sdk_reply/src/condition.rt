// Conditions of waits.
ghost use Rattle.std.specs.Prelude.{◌≡◌, IfOk, IfSome, option_map};
ghost use Rattle.cel_parse.specs.Faults.{parse_text};
ghost use Rattle.json_text.specs.Nodes.{IsNodeOf, kind_of, value_at};
ghost use Rattle.json_text.specs.Text.{text_of};
ghost use Rattle.json_text.specs.declared.kind.Kind.TheVariants as kind;
ghost use Rattle.sdk_reply.specs.Operations.{condition_in, optional_condition, parsed};

use crate::part::Part;
use cel_parse::{ParseFault, parse};
use expr::Expr;
use json_text::{Kind, Node, Tree};
use lists::Memory;
use std::alloc::Global;

/// A text that is an expression, and need not be there.
pub(crate) fn optional_condition(
    alloc: Global,
    tree: &Tree<'_>,
    node: Option<Node>,
) -> Result<Part<Expr>, Memory>
    requires { IfSome node (IsNodeOf tree.now) }
    ensures { IfOk result (λ part. part ≡ optional_condition (option_map (value_at tree.now) node)) }
{
    match node {
        None => Ok(Part::Absent),
        Some(node) if tree.kind(node) == Kind::Text => condition_of(alloc, tree, node),
        Some(_) => Ok(Part::Invalid),
    }
}

fn condition_of(alloc: Global, tree: &Tree<'_>, node: Node) -> Result<Part<Expr>, Memory>
    requires node { IsNodeOf tree.now node }
    requires text { kind_of (value_at tree.now node) ≡ kind.Text }
    ensures { IfOk result (λ part. part ≡ parsed (parse_text (text_of (value_at tree.now node)))) }
{
    match tree.plain_text(node) {
        Some(text) => parsed(alloc, text),
        None => parsed(alloc, tree.text_of(node)?.as_slice()),
    }
}

fn parsed(alloc: Global, text: &[u8]) -> Result<Part<Expr>, Memory>
    ensures { IfOk result (λ part. part ≡ parsed (parse_text text.now)) }
{
    match parse(alloc, text) {
        Ok(condition) => Ok(Part::Valid(condition)),
        Err(ParseFault::TooLong) => Ok(Part::Invalid),
        Err(ParseFault::Syntax { .. }) => Ok(Part::Invalid),
        Err(ParseFault::TooDeep { .. }) => Ok(Part::Invalid),
        Err(ParseFault::Memory) => Err(Memory),
    }
}
