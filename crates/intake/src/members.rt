// The members of an event.
ghost use Rattle.std.specs.Prelude.{◌≡◌, Some, IfOk, codes, option_map};
ghost use Rattle.json_text.specs.Nodes.{IsNodeOf, value_at};
ghost use Rattle.json_text.specs.Text.{member_of};
ghost use Rattle.intake.specs.Events.{content_in, event_with, not_empty, number_in, slice_in, text_in};

use json_text::{Kind, Node, Tree};
use kinds::EventIn;
use lists::{Bytes, Memory};
use std::alloc::Global;

/// The event with this name and data at a node, which has its other members.
pub(crate) fn event_with(
    alloc: Global,
    tree: &Tree<'_>,
    node: Node,
    name: Bytes,
    content: &[u8],
) -> Result<EventIn, Memory>
    requires { IsNodeOf tree.now node }
    ensures { IfOk result (λ event. event ≡ event_with (value_at tree.now node) name content.now) }
{
    let id = text_in(tree, node, b"id")?;
    let content = Bytes::from_slice(alloc, content)?;
    let ts = copied(alloc, number_in(tree, node, b"ts"))?;
    let user = copied(alloc, slice_in(tree, node, b"user"))?;
    let v = copied(alloc, slice_in(tree, node, b"v"))?;
    Ok(EventIn {
        name,
        content,
        id,
        ts,
        user,
        v,
    })
}

/// The member of this name, unescaped, where it is a text and isn't empty.
pub(crate) fn text_in(tree: &Tree<'_>, node: Node, name: &[u8]) -> Result<Option<Bytes>, Memory>
    requires { IsNodeOf tree.now node }
    ensures { IfOk result (λ text. text ≡ text_in (member_of (value_at tree.now node) name.now)) }
{
    match tree.member(node, name) {
        Some(member) if tree.kind(member) == Kind::Text => Ok(not_empty(tree.text_of(member)?)),
        _ => Ok(None),
    }
}

fn not_empty(text: Bytes) -> Option<Bytes>
    ensures { result ≡ not_empty text }
{
    if text.is_empty() { None } else { Some(text) }
}

/// The member `data` as it stands: an object, and an empty one where the member is absent or null.
pub(crate) fn content_in<'a>(tree: &Tree<'a>, node: Node) -> Option<&'a [u8]>
    requires { IsNodeOf tree.now node }
    ensures { option_map (λ c. c.now) result ≡
        content_in (member_of (value_at tree.now node) (codes "data")) }
{
    let Some(member) = tree.member(node, b"data") else {
        return Some(b"{}");
    };
    match tree.kind(member) {
        Kind::Null => Some(b"{}"),
        Kind::Object => Some(tree.slice(member)),
        _ => None,
    }
}

/// The member of this name as it stands, where it is a number.
fn number_in<'a>(tree: &Tree<'a>, node: Node, name: &[u8]) -> Option<&'a [u8]>
    requires { IsNodeOf tree.now node }
    ensures { option_map (λ n. n.now) result ≡ number_in (member_of (value_at tree.now node) name.now) }
{
    match tree.member(node, name) {
        Some(member) if tree.kind(member) == Kind::Number => Some(tree.slice(member)),
        _ => None,
    }
}

/// The member of this name as it stands.
fn slice_in<'a>(tree: &Tree<'a>, node: Node, name: &[u8]) -> Option<&'a [u8]>
    requires { IsNodeOf tree.now node }
    ensures { option_map (λ s. s.now) result ≡ slice_in (member_of (value_at tree.now node) name.now) }
{
    let member = tree.member(node, name)?;
    Some(tree.slice(member))
}

fn copied(alloc: Global, slice: Option<&[u8]>) -> Result<Option<Bytes>, Memory>
    ensures { IfOk result (λ bytes. bytes ≡ option_map (λ s. s.now) slice.entry) }
{
    match slice {
        Some(bytes) => Ok(Some(Bytes::from_slice(alloc, bytes)?)),
        None => Ok(None),
    }
}
