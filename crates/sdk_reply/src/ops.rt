// A list of operations.
ghost use Rattle.std.specs.Prelude.{◌≡◌};
ghost use Rattle.lists.specs.Starved.{OrStarved};
ghost use Rattle.json_text.specs.Nodes.{IsNodeOf, item_nodes};
ghost use Rattle.sdk_reply.specs.Ops.{ops_at};
ghost use Rattle.sdk_reply.specs.declared.ops.OpsFault.TheVariants as fault;

use crate::operation::push_operation;
use json_text::{Node, Tree};
use kinds::Op;
use lists::{Items, Memory};
use std::alloc::Global;

/// Why values are no list of operations.
#[derive(Drop)]
pub(crate) enum OpsFault {
    /// The first that isn't valid begins at this place of the text, in bytes from 0.
    NotValid { at: u64 },
    /// No memory was to be had.
    Memory,
}

impl From<Memory> for OpsFault {
    ghost use Rattle.std.specs.Prelude.{◌≡◌};
    ghost use Rattle.sdk_reply.specs.declared.ops.OpsFault.TheVariants as fault;

    ghost from_gives = { λ _ e. e ≡ fault.Memory };

    fn from(_error: Memory) -> Self {
        OpsFault::Memory
    }
}

/// The operations of a list, in order.
pub(crate) fn read_ops(alloc: Global, tree: &Tree<'_>, list: Node) -> Result<Items<Op>, OpsFault>
    requires { IsNodeOf tree.now list }
    ensures { OrStarved fault.Memory (ops_at tree.now (item_nodes tree.now list)) result }
{
    let mut ops = Items::new(alloc);
    for node in tree.items(list) {
        if !push_operation(&mut ops, alloc, tree, node)? {
            return Err(OpsFault::NotValid {
                at: tree.start(node) as u64,
            });
        }
    }
    Ok(ops)
}
