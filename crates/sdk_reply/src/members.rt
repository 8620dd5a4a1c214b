// Members of an operation, by the kind that they have to be of.
ghost use Rattle.std.specs.Prelude.{◌≡◌, IfOk, IfSome, Some, codes, option_map, true};
ghost use Rattle.json_text.specs.Nodes.{IsNodeOf, kind_of, value_at};
ghost use Rattle.json_text.specs.Text.{inside, member_of, text_of, unescaped};
ghost use Rattle.json_text.specs.declared.kind.Kind.TheVariants as kind;
ghost use Rattle.step_ids.specs.Step.{is_step_name};
ghost use Rattle.sdk_reply.specs.Found.{AreThere, parts_at};
ghost use Rattle.sdk_reply.specs.Operations.{as_hash, as_name, hash_in, name_in, text_in};
ghost use Rattle.sdk_reply.specs.Operations.{option_of, option_or_name, slice_in, slice_or_null};

use crate::op_members::OpMembers;
use json_text::{Kind, Node, Tree};
use kinds::StepHash;
use lists::{Bytes, Memory};
use std::alloc::Global;
use step_ids::is_step_hash;

/// The last member of this name.
pub(crate) fn member_of(tree: &Tree<'_>, node: Node, name: &[u8]) -> Option<Node>
    requires { IsNodeOf tree.now node }
    ensures node { IfSome result (IsNodeOf tree.now) }
    ensures value { option_map (value_at tree.now) result ≡ member_of (value_at tree.now node) name.now }
{
    tree.member(node, name)
}

/// A member of the member `opts`.
pub(crate) fn option_of(tree: &Tree<'_>, options: Option<Node>, name: &[u8]) -> Option<Node>
    requires { IfSome options (IsNodeOf tree.now) }
    ensures node { IfSome result (IsNodeOf tree.now) }
    ensures value { option_map (value_at tree.now) result
        ≡ option_of (option_map (value_at tree.now) options) name.now }
{
    match options {
        Some(options) => member_of(tree, options, name),
        None => None,
    }
}

/// A member of the member `opts`, or where it is absent the member `name`.
pub(crate) fn option_or_name(tree: &Tree<'_>, members: &OpMembers, name: &[u8]) -> Option<Node>
    requires { AreThere tree.now members.now }
    ensures node { IfSome result (IsNodeOf tree.now) }
    ensures value { option_map (value_at tree.now) result
        ≡ option_or_name (parts_at tree.now members.now) name.now }
{
    match option_of(tree, members.opts, name) {
        Some(option) => Some(option),
        None => members.name,
    }
}

/// A text, unescaped.
pub(crate) fn text_in(tree: &Tree<'_>, node: Option<Node>) -> Result<Option<Bytes>, Memory>
    requires { IfSome node (IsNodeOf tree.now) }
    ensures { IfOk result (λ text. text ≡ text_in (option_map (value_at tree.now) node)) }
{
    match node {
        Some(node) if tree.kind(node) == Kind::Text => Ok(Some(tree.text_of(node)?)),
        _ => Ok(None),
    }
}

/// A text that isn't empty.
pub(crate) fn name_in(tree: &Tree<'_>, node: Option<Node>) -> Result<Option<Bytes>, Memory>
    requires { IfSome node (IsNodeOf tree.now) }
    ensures { IfOk result (λ name. name ≡ name_in (option_map (value_at tree.now) node)) }
{
    match text_in(tree, node)? {
        Some(text) => Ok(as_name(text)),
        None => Ok(None),
    }
}

fn as_name(text: Bytes) -> Option<Bytes>
    ensures { result ≡ as_name text }
{
    if text.is_empty() { None } else { Some(text) }
}

/// Any value as it stands in the reply.
pub(crate) fn slice_in(
    alloc: Global,
    tree: &Tree<'_>,
    node: Option<Node>,
) -> Result<Option<Bytes>, Memory>
    requires { IfSome node (IsNodeOf tree.now) }
    ensures { IfOk result (λ text. text ≡ slice_in (option_map (value_at tree.now) node)) }
{
    match node {
        Some(node) => Ok(Some(Bytes::from_slice(alloc, tree.slice(node))?)),
        None => Ok(None),
    }
}

/// Any value as it stands in the reply, and `null` where it is absent.
pub(crate) fn slice_or_null(
    alloc: Global,
    tree: &Tree<'_>,
    node: Option<Node>,
) -> Result<Bytes, Memory>
    requires { IfSome node (IsNodeOf tree.now) }
    ensures { IfOk result (λ text. text ≡ slice_or_null (option_map (value_at tree.now) node)) }
{
    match node {
        Some(node) => Bytes::from_slice(alloc, tree.slice(node)),
        None => Bytes::from_slice(alloc, b"null"),
    }
}

/// The name of a step.
pub(crate) fn hash_in(tree: &Tree<'_>, node: Option<Node>) -> Result<Option<StepHash>, Memory>
    requires { IfSome node (IsNodeOf tree.now) }
    ensures { IfOk result (λ hash. hash ≡ hash_in (option_map (value_at tree.now) node)) }
{
    match node {
        Some(node) if tree.kind(node) == Kind::Text => hash_of(tree, node),
        _ => Ok(None),
    }
}

fn hash_of(tree: &Tree<'_>, node: Node) -> Result<Option<StepHash>, Memory>
    requires node { IsNodeOf tree.now node }
    requires text { kind_of (value_at tree.now node) ≡ kind.Text }
    ensures { IfOk result (λ hash. hash ≡ as_hash (text_of (value_at tree.now node))) }
{
    match tree.plain_text(node) {
        Some(text) => Ok(as_hash(text)),
        None => Ok(as_hash(tree.text_of(node)?.as_slice())),
    }
}

fn as_hash(text: &[u8]) -> Option<StepHash>
    ensures { result ≡ as_hash text.now }
{
    if is_step_hash(text) {
        Some(step_hash(text))
    } else {
        None
    }
}

/// The name as a value of its own.
pub(crate) fn step_hash(name: &[u8]) -> StepHash
    requires { is_step_name name.now ≡ true }
    ensures { result ≡ name.now }
{
    let mut digits = [0; 40];
    digits.copy_from_slice(name);
    StepHash::new(digits)
}

/// The name of a step as it stands in the reply, with no digit escaped.
pub(crate) fn plain_name<'a>(tree: &Tree<'a>, node: Option<Node>) -> Option<&'a [u8]>
    requires { IfSome node (IsNodeOf tree.now) }
    ensures form { IfSome result (λ name. is_step_name name.now ≡ true) }
    ensures name { IfSome result
        (λ name. Some name.now ≡ hash_in (option_map (value_at tree.now) node)) }
{
    match node {
        Some(node) if tree.kind(node) == Kind::Text => name_within(tree.slice(node)),
        _ => None,
    }
}

fn name_within(spelling: &[u8]) -> Option<&[u8]>
    ensures form { IfSome result (λ name. is_step_name name.now ≡ true) }
    ensures name { IfSome result (λ name. Some name.now ≡ as_hash (unescaped spelling.now)) }
{
    let text = inside(spelling);
    if is_step_hash(text) { Some(text) } else { None }
}

/// What stands between the first byte and the last.
pub(crate) fn inside(spelling: &[u8]) -> &[u8]
    ensures { result.now ≡ inside spelling.now }
{
    match spelling {
        [_, inside @ .., _] => inside,
        _ => &[],
    }
}
