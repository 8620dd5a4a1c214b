// The events of a request's body.
ghost use Rattle.std.specs.Prelude.{◌≡◌, [], ◌∷◌};
ghost use Rattle.json_text.specs.Nodes.{IsNodeOf, items_of, value_at, kind_of};
ghost use Rattle.json_text.specs.declared.kind.Kind.TheVariants as kind;
ghost use Rattle.intake.specs.Events.{event_of, events_from, events_in, events_in_body, events_of};
ghost use Rattle.intake.specs.declared.fault.IntakeFault.TheVariants as fault;
ghost use Rattle.lists.specs.Starved.{OrStarved};

use crate::IntakeFault;
use crate::members::{content_in, event_with, text_in};
use json_text::{Kind, Node, Tree};
use kinds::EventIn;
use lists::Items;
use std::alloc::Global;

/// The greatest number of events in a request.
const MOST_EVENTS: usize = 1_000;

/// The greatest length of an event's own text in the request, in bytes.
const MOST_BYTES: usize = 262_144;

/// Reads the body of a request of events: one event, or an array of at most 1,000. A body is refused
/// whole, for the first of its faults in the order of the variants of `IntakeFault`; the faults of
/// events are found event by event.
#[tactic(auto, unfolding(crate::specs::Events::events_in_body))]
pub fn read_events(alloc: Global, body: &[u8]) -> Result<Items<EventIn>, IntakeFault>
    ensures { OrStarved fault.Memory (events_in_body body.now) result }
{
    let tree = Tree::read(alloc, body)?;
    events_of(alloc, &tree)
}

fn events_of(alloc: Global, tree: &Tree<'_>) -> Result<Items<EventIn>, IntakeFault>
    ensures { OrStarved fault.Memory (events_of tree.now.value) result }
{
    let root = tree.root();
    if tree.kind(root) == Kind::List {
        events_in(alloc, tree, root)
    } else {
        one_event(alloc, tree, root)
    }
}

#[tactic(auto, unfolding(crate::specs::Events::events_from))]
fn one_event(alloc: Global, tree: &Tree<'_>, node: Node) -> Result<Items<EventIn>, IntakeFault>
    requires { IsNodeOf tree.now node }
    ensures { OrStarved fault.Memory (events_in (value_at tree.now node ∷ [])) result }
{
    let mut events = Items::new(alloc);
    events.push(event_of(alloc, tree, node, 0)?)?;
    Ok(events)
}

fn events_in(alloc: Global, tree: &Tree<'_>, list: Node) -> Result<Items<EventIn>, IntakeFault>
    requires node { IsNodeOf tree.now list }
    requires list { kind_of (value_at tree.now list) ≡ kind.List }
    ensures { OrStarved fault.Memory (events_in (items_of (value_at tree.now list))) result }
{
    let count = tree.len(list);
    if count > MOST_EVENTS {
        return Err(IntakeFault::TooMany {
            count: count as u64,
        });
    }
    events_from(alloc, tree, list)
}

/// The events of a list, in order.
fn events_from(alloc: Global, tree: &Tree<'_>, list: Node) -> Result<Items<EventIn>, IntakeFault>
    requires { IsNodeOf tree.now list }
    ensures { OrStarved fault.Memory (events_from 0 (items_of (value_at tree.now list))) result }
{
    let mut events = Items::new(alloc);
    for node in tree.items(list) {
        let index = events.len() as u64;
        events.push(event_of(alloc, tree, node, index)?)?;
    }
    Ok(events)
}

/// The event at a node, which is the one of this index in the request.
#[tactic(auto, unfolding(crate::specs::Events::event_of))]
fn event_of(alloc: Global, tree: &Tree<'_>, node: Node, index: u64) -> Result<EventIn, IntakeFault>
    requires { IsNodeOf tree.now node }
    ensures { OrStarved fault.Memory (event_of index (value_at tree.now node)) result }
{
    let Some(name) = text_in(tree, node, b"name")? else {
        return Err(IntakeFault::NoName { index });
    };
    let Some(content) = content_in(tree, node) else {
        return Err(IntakeFault::DataNotObject { index });
    };
    if tree.slice(node).len() > MOST_BYTES {
        return Err(IntakeFault::TooLarge { index });
    }
    Ok(event_with(alloc, tree, node, name, content)?)
}
