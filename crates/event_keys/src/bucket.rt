// The bucket of a condition: what a fresh event must have for it to be true.
ghost use Rattle.std.specs.Prelude.{◌≡◌, IfOk, Some};
ghost use Rattle.std.specs.Option.{option_copied};
ghost use Rattle.expr.specs.Trees.{tree_of};
ghost use Rattle.json_text.specs.Nodes.{IsFound};
ghost use Rattle.event_keys.specs.Buckets.{bucket_of, bucket_with, found_text, key_text, member_at, value_in, worth_on};
ghost use Rattle.event_keys.specs.Expressions.{json_of};
ghost use Rattle.event_keys.specs.Reading.{compared_of};

use crate::ReadEvent;
use crate::answers::key_text;
use crate::comparison::{Comparison, first_compared};
use cel_eval::{eval_term, node_value};
use expr::{Expr, Term};
use json_text::{Node, Tree};
use kinds::Bucket;
use lists::{Bytes, Memory};
use std::alloc::Global;

impl<'a> ReadEvent<'a> {
    /// Where a fresh event must have a value for a condition to be true, with this event as the first
    /// of the run. Of the conjuncts, from left to right, the first counts that compares a member of the
    /// fresh event with something that doesn't name it. None where no conjunct does so, or where what it
    /// compares with has no value on this event, or a list or an object.
    pub fn bucket_of(&self, alloc: Global, cond: Option<&Expr>) -> Result<Option<Bucket>, Memory>
        ensures { IfOk result (λ bucket. bucket ≡ bucket_of (option_copied cond.entry) self.now) }
    {
        let Some(expr) = cond else {
            return Ok(None);
        };
        match first_compared(alloc, expr.term())? {
            Some(found) => self.bucket_with(alloc, found),
            None => Ok(None),
        }
    }

    fn bucket_with(&self, alloc: Global, found: Comparison<'_>) -> Result<Option<Bucket>, Memory>
        ensures { IfOk result (λ bucket. bucket
            ≡ bucket_with self.now (Some (compared_of found.entry))) }
    {
        match self.part_text(alloc, found.to)? {
            Some(value) => Ok(Some(Bucket {
                path: found.path,
                value,
            })),
            None => Ok(None),
        }
    }

    fn part_text(&self, alloc: Global, part: &Term) -> Result<Option<Bytes>, Memory>
        ensures { IfOk result (λ text. text
            ≡ key_text (worth_on (tree_of part.now) (json_of self.now))) }
    {
        match self.tree() {
            Some(tree) => key_text(alloc, eval_term(alloc, part, tree)),
            None => Ok(None),
        }
    }

    /// The cell value of the event's member at a path. None where the path has no member, or where its
    /// value is a list, an object or a number out of range.
    #[tactic(auto, using(crate::proofs::LoopLemmas::nothing_at))]
    pub fn value_at(&self, alloc: Global, path: &[Bytes]) -> Result<Option<Bytes>, Memory>
        ensures { IfOk result (λ value. value ≡ value_in path.now self.now) }
    {
        match self.tree() {
            Some(tree) => value_at(alloc, tree, path),
            None => Ok(None),
        }
    }
}

fn value_at(alloc: Global, tree: &Tree<'_>, path: &[Bytes]) -> Result<Option<Bytes>, Memory>
    ensures { IfOk result (λ value. value ≡ found_text (member_at (Some tree.now.value) path.now)) }
{
    match member_at(tree, path) {
        Some(node) => key_text(alloc, node_value(alloc, tree, node)),
        None => Ok(None),
    }
}

// The member at a path from the root.
#[tactic(auto, using(crate::proofs::LoopLemmas::found, crate::proofs::LoopLemmas::missed, crate::proofs::LoopLemmas::arrived))]
fn member_at(tree: &Tree<'_>, path: &[Bytes]) -> Option<Node>
    ensures { IsFound tree.now (member_at (Some tree.now.value) path.now) result }
{
    let mut node = tree.root();
    for name in path {
        node = tree.member(node, name.as_slice())?;
    }
    Some(node)
}
