// Durations and dates of operations.
ghost use Rattle.std.specs.Prelude.{◌≡◌, IfOk, IfSome, option_map};
ghost use Rattle.json_text.specs.Nodes.{IsNodeOf, kind_of, value_at};
ghost use Rattle.json_text.specs.Text.{text_of};
ghost use Rattle.json_text.specs.declared.kind.Kind.TheVariants as kind;
ghost use Rattle.text_num.specs.Duration.{duration_of};
ghost use Rattle.sdk_reply.specs.Dates.{date_moment};
ghost use Rattle.sdk_reply.specs.Operations.{as_date, as_span, as_time, given, optional_time, time_in};

use crate::after::date_moment;
use crate::part::Part;
use json_text::{Kind, Node, Tree};
use kinds::Time;
use lists::Memory;
use text_num::read_duration;

/// A text that is a duration, or else a date.
pub(crate) fn time_in(tree: &Tree<'_>, node: Option<Node>) -> Result<Option<Time>, Memory>
    requires { IfSome node (IsNodeOf tree.now) }
    ensures { IfOk result (λ time. time ≡ time_in (option_map (value_at tree.now) node)) }
{
    match node {
        Some(node) if tree.kind(node) == Kind::Text => time_of(tree, node),
        _ => Ok(None),
    }
}

fn time_of(tree: &Tree<'_>, node: Node) -> Result<Option<Time>, Memory>
    requires node { IsNodeOf tree.now node }
    requires text { kind_of (value_at tree.now node) ≡ kind.Text }
    ensures { IfOk result (λ time. time ≡ as_time (text_of (value_at tree.now node))) }
{
    match tree.plain_text(node) {
        Some(text) => Ok(as_time(text)),
        None => Ok(as_time(tree.text_of(node)?.as_slice())),
    }
}

/// A time that need not be there.
pub(crate) fn optional_time(tree: &Tree<'_>, node: Option<Node>) -> Result<Part<Time>, Memory>
    requires { IfSome node (IsNodeOf tree.now) }
    ensures { IfOk result (λ part. part ≡ optional_time (option_map (value_at tree.now) node)) }
{
    if node.is_none() {
        return Ok(Part::Absent);
    }
    match time_in(tree, node)? {
        Some(time) => Ok(Part::Valid(time)),
        None => Ok(Part::Invalid),
    }
}

fn as_time(text: &[u8]) -> Option<Time>
    ensures { result ≡ as_time text.now }
{
    match read_duration(text) {
        Ok(millis) => Some(Time::Span(millis)),
        Err(_) => as_date(text),
    }
}

fn as_date(text: &[u8]) -> Option<Time>
    ensures { result ≡ as_date (date_moment text.now) }
{
    match date_moment(text) {
        Some(moment) => Some(Time::At(moment)),
        None => None,
    }
}
